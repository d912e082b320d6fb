//! The lines up to the first `end`, read as those of a checkpoint.
ghost use Rattle.std.specs.Prelude.{◌≡◌, true, Err, IfOk, IfSome};
ghost use Rattle.byte_lines.specs.Faults.{CountsFaults};
ghost use Rattle.checkpoint_reader.specs.Gathered.{has_gathered_form};
ghost use Rattle.line_giver.specs.Giving.{PassesSome};
ghost use Rattle.state_reader.specs.Reads.{ReadsText};

use crate::all::read_all;
use byte_lines::LineFault;
use checkpoint_reader::Gathered;
use ended_lines::{Stand, UpToEnd};
use line_giver::LineGiver;
use std::alloc::Global;

/// Passes the lines up to and with the first `end`, or all lines. If they are those of a
/// checkpoint, kind by kind, returns what they say. The buffer loses what it held.
pub(crate) fn read_text<G: LineGiver>(
    alloc: Global,
    giver: &mut G,
    text: &mut Vec<u8>,
) -> Result<Option<Gathered>, LineFault>
    ensures form { IfOk result (λ g. IfSome g (λ x. has_gathered_form x ≡ true)) }
    ensures reads { IfOk result (ReadsText (G.passed giver.old) (G.passed giver.new) (G.giving giver.old) (G.giving giver.new)) }
    ensures passes { PassesSome (G.passed giver.old) (G.passed giver.new) (G.giving giver.old) (G.giving giver.new) }
    ensures over { result ≡ Err LineFault.TooMuch → G.IsOver giver.new }
    ensures counts { CountsFaults (result ≡ Err LineFault.ReadFault) (G.faults giver.old) (G.faults giver.new) }
{
    let mut lines = UpToEnd {
        giver,
        stand: Stand::Open,
    };
    let read = read_all(alloc, &mut lines, text);
    let UpToEnd { giver: _, stand: _ } = lines;
    read
}
