//! All tests of a state.
ghost use Rattle.std.specs.Prelude.{◌≡◌, ◌↔◌, true, IfOk};
ghost use Rattle.checkpoint_model.specs.Laws.{ShortByForm};
ghost use Rattle.checkpoint_model.specs.Resumable.{IsResumable};
ghost use Rattle.state_lists.specs.Worlds.{world_of_lists};
ghost use Rattle.resumable_lists.specs.Shown.{IsShown};

use crate::epoch::is_sound_epoch;
use crate::form::{is_sound_form, supply_of};
use crate::ledger::is_sound_ledger;
use no_memory::NoMemory;
use state_lists::StateLists;
use std::alloc::Global;

/// Whether these lists are a state that is sound to be resumed; by the law that no line of a
/// checkpoint is too long, if no line of an action is. `NoMemory` may come at any time.
#[tactic(auto, using(crate::proofs::Sounds::no_form, crate::proofs::Sounds::no_epoch, crate::proofs::Sounds::no_supply, crate::proofs::Sounds::books_formed))]
pub fn is_resumable(alloc: Global, state: &StateLists) -> Result<bool, NoMemory>
    requires { IsShown state.now }
    ensures { ShortByForm → IfOk result (λ sound. (sound ≡ true) ↔ IsResumable (world_of_lists state.now)) }
{
    let Some(supply) = supply_of(&state.pots) else {
        return Ok(false);
    };
    let formed = is_sound_form(alloc, state, supply)?;
    if !formed {
        return Ok(false);
    }
    let covered = is_sound_epoch(state, supply);
    if !covered {
        return Ok(false);
    }
    is_sound_ledger(alloc, state, supply)
}
