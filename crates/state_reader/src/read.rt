ghost use Rattle.std.specs.Prelude.{◌≡◌, Err, IfOk, IfSome};
ghost use Rattle.byte_lines.specs.Faults.{CountsFaults};
ghost use Rattle.checkpoint_model.specs.Resumable.{IsResumable};
ghost use Rattle.line_giver.specs.Giving.{PassesSome};
ghost use Rattle.resume_loop.specs.Heads.{ReadsCheckpoint};
ghost use Rattle.state_lists.specs.Worlds.{world_of_lists};

use crate::sound::sound_of;
use crate::text::read_text;
use byte_lines::LineFault;
use checkpoint_lists::shown_are_of_worlds;
use line_giver::LineGiver;
use state_lists::StateLists;
use std::alloc::Global;

/// Passes the lines up to and with the first `end`, or all lines. If they are a checkpoint, returns
/// the lists of its state, which can be resumed, and the number of the line after which it was
/// made. An error is that of the giver, or `NoMemory`; some lines may be passed before it.
pub fn read_sound<G: LineGiver>(
    alloc: Global,
    giver: &mut G,
) -> Result<Option<(StateLists, u64)>, LineFault>
    ensures sound { IfOk result (λ r. IfSome r (λ x. IsResumable (world_of_lists x.0))) }
    ensures reads { IfOk result (ReadsCheckpoint world_of_lists (G.passed giver.old) (G.passed giver.new) (G.giving giver.old) (G.giving giver.new)) }
    ensures passes { PassesSome (G.passed giver.old) (G.passed giver.new) (G.giving giver.old) (G.giving giver.new) }
    ensures over { result ≡ Err LineFault.TooMuch → G.IsOver giver.new }
    ensures counts { CountsFaults (result ≡ Err LineFault.ReadFault) (G.faults giver.old) (G.faults giver.new) }
{
    // (law: the lines of a checkpoint are those of what its World shows)
    shown_are_of_worlds();
    let mut text = Vec::new(alloc);
    match read_text(alloc, giver, &mut text)? {
        Some(gathered) => Ok(sound_of(alloc, &mut text, gathered)?),
        None => Ok(None),
    }
}
