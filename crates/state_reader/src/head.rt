//! The first line of a checkpoint.
ghost use Rattle.std.specs.Prelude.{◌≡◌, [], Err, IfOk};
ghost use Rattle.byte_lines.specs.Faults.{CountsFaults};
ghost use Rattle.line_giver.specs.Giving.{HasPassed, lines_of_giving};
ghost use Rattle.state_reader.specs.Reads.{IsHead};

use byte_lines::{Line, LineFault};
use line_giver::LineGiver;
use line_kinds::LineReader;
use state_kinds::HeadLines;

/// Whether the next line is the first one of a checkpoint. No line is passed. The buffer loses what
/// it held.
pub(crate) fn has_head<G: LineGiver>(giver: &mut G, text: &mut Vec<u8>) -> Result<bool, LineFault>
    ensures passes { HasPassed (G.passed giver.old) (G.passed giver.new) (G.giving giver.old) (G.giving giver.new) [] }
    ensures is { IfOk result (IsHead (lines_of_giving (G.giving giver.new))) }
    ensures over { result ≡ Err LineFault.TooMuch → G.IsOver giver.new }
    ensures counts { CountsFaults (result ≡ Err LineFault.ReadFault) (G.faults giver.old) (G.faults giver.new) }
{
    match giver.peek()? {
        Line::Whole => Ok(<HeadLines as LineReader>::read_line(text, giver.text())?.is_some()),
        Line::TooLong | Line::End => Ok(false),
    }
}
