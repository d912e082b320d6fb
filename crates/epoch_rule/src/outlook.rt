ghost use Rattle.std.specs.Prelude.{◌≡◌, IfOk};
ghost use Rattle.drep_pulser.specs.Facts.{IsCountedOf};
ghost use Rattle.epoch_steps.specs.Decisions.{enacted_by};
ghost use Rattle.gov_model.specs.Enacted.{enacted_after};
ghost use Rattle.gov_model.specs.Ratified.{expired_of, ratified_of, tallies_of};
ghost use Rattle.snapshots.specs.Frozen.{frozen_copy_of};
ghost use Rattle.tally.specs.Counted.{CanBeCounted};

use crate::counts::finished_alone;
use coin_frac::NoMemory;
use drep_pulser::Counted;
use epoch_steps::of_frozen_reads::sound_can_be_counted;
use epoch_steps::of_ratify::{Outcome, ratify};
use gov_model::one_list_is_ratified;
use ledger_state::LedgerState;
use std::alloc::Global;

/// What the next boundary's pass decides of the frozen proposals, with its state and tallies.
/// Nothing that the epoch still brings changes it. It counts on a copy; the state stays as it is.
/// (CIP-1694, Ratification; RATIFY of the formal specification)
pub fn next_outcome(alloc: Global, s: &LedgerState) -> Result<Outcome, NoMemory>
    ensures ratified { IfOk result (λ o. o.ratified ≡ ratified_of s.now.frozen) }
    ensures expired { IfOk result (λ o. o.expired ≡ expired_of s.now.frozen (ratified_of s.now.frozen)) }
    ensures state { IfOk result (λ o. o.state ≡ enacted_after s.now.frozen (enacted_by s.now.frozen)) }
    ensures tallies { IfOk result (λ o. o.tallies ≡ tallies_of s.now.frozen (ratified_of s.now.frozen)) }
{
    one_list_is_ratified();
    let counted = counted_copy(alloc, s)?;
    ratify(alloc, s.frozen(), &counted)
}

// The frozen epoch's count, ended, by which its proposals can be counted.
fn counted_copy(alloc: Global, s: &LedgerState) -> Result<Counted, NoMemory>
    ensures counted { IfOk result (IsCountedOf s.now.frozen) }
    ensures fits { IfOk result (CanBeCounted (frozen_copy_of s.now.frozen)) }
{
    sound_can_be_counted();
    let pulser = s.pulser().copied(alloc)?;
    Ok(finished_alone(pulser, s.live().stake().book()))
}
