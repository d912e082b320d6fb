//! All lines of a giver, read as those of a checkpoint.
ghost use Rattle.std.specs.Prelude.{◌≡◌, true, Err, IfOk, IfSome};
ghost use Rattle.byte_lines.specs.Faults.{CountsFaults};
ghost use Rattle.checkpoint_reader.specs.Gathered.{has_gathered_form};
ghost use Rattle.line_giver.specs.Giving.{PassesSome};
ghost use Rattle.state_reader.specs.Reads.{ReadsAll};

use crate::head::has_head;
use crate::rest::pass_all;
use byte_lines::LineFault;
use checkpoint_reader::{Gathered, read_lists};
use line_giver::LineGiver;
use std::alloc::Global;

/// Passes all lines. If the first ones are those of a checkpoint, kind by kind, returns what they
/// say. The buffer loses what it held.
pub(crate) fn read_all<G: LineGiver>(
    alloc: Global,
    giver: &mut G,
    text: &mut Vec<u8>,
) -> Result<Option<Gathered>, LineFault>
    ensures form { IfOk result (λ g. IfSome g (λ x. has_gathered_form x ≡ true)) }
    ensures reads { IfOk result (ReadsAll (G.passed giver.old) (G.passed giver.new) (G.giving giver.old) (G.giving giver.new)) }
    ensures passes { PassesSome (G.passed giver.old) (G.passed giver.new) (G.giving giver.old) (G.giving giver.new) }
    ensures over { result ≡ Err LineFault.TooMuch → G.IsOver giver.new }
    ensures counts { CountsFaults (result ≡ Err LineFault.ReadFault) (G.faults giver.old) (G.faults giver.new) }
{
    // (a count that does not fit in 64 bits would be of more frozen entries than there are lines)
    let is_head = has_head(giver, text)?;
    if !is_head {
        pass_all(giver)?;
        return Ok(None);
    }
    let gathered = read_lists(alloc, giver, text)?;
    pass_all(giver)?;
    Ok(gathered)
}
