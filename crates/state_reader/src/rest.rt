//! Lines of which nothing is kept.
ghost use Rattle.std.specs.Prelude.{◌≡◌, Err, OnOk};
ghost use Rattle.byte_lines.specs.Faults.{CountsFaults};
ghost use Rattle.line_giver.specs.Giving.{PassesSome};
ghost use Rattle.state_reader.specs.Reads.{PassesAll};

use byte_lines::{Line, LineFault};
use line_giver::LineGiver;

/// Passes all lines. Nothing is kept of them.
pub(crate) fn pass_all<G: LineGiver>(giver: &mut G) -> Result<(), LineFault>
    ensures all { OnOk result (PassesAll (G.passed giver.old) (G.passed giver.new) (G.giving giver.old) (G.giving giver.new)) }
    ensures passes { PassesSome (G.passed giver.old) (G.passed giver.new) (G.giving giver.old) (G.giving giver.new) }
    ensures over { result ≡ Err LineFault.TooMuch → G.IsOver giver.new }
    ensures counts { CountsFaults (result ≡ Err LineFault.ReadFault) (G.faults giver.old) (G.faults giver.new) }
{
    for _ in 0..u64::MAX {
        match giver.peek()? {
            Line::Whole | Line::TooLong => giver.pass(),
            Line::End => return Ok(()),
        }
    }
    // (no stream has so many lines)
    Err(LineFault::NoMemory)
}
