//! What epochs add to the live state.
ghost use Rattle.std.specs.Prelude.{◌≡◌, IfOk, not, true};
ghost use Rattle.gov_ids.specs.Orders.{action_id_cmp, pool_cmp};
ghost use Rattle.text_forms.specs.of_gov_model.Ratified.{ids_of};
ghost use Rattle.maps.specs.Words.{repeats};
ghost use Rattle.shown_lists.specs.Only.{IsOnly};
ghost use Rattle.text_forms.specs.Ids.{is_map};
ghost use Rattle.told_lists.specs.Parts.{AreEpochLists, epoch_shown, is_pending, pending_shown, stakes_shown};

use crate::frozen::frozen_of;
use checkpoint_lists::{FrozenRows, Stakes};
use gov_actions::Proposal;
use gov_ids::Credential;
use listed::Listed;
use no_memory::NoMemory;
use resume_checks::is_map;
use snapshots::Snapshots;
use state_lists::FrozenState;
use std::alloc::Global;
use tx_records::Rewards;

/// What is pending, if anything: from reserves, from fees, to the treasury, in lovelace; and its
/// rewards.
pub(crate) type PendingRows = (Option<(u64, u64, u64)>, Listed<(Credential, u64)>);

/// What is pending, the stakes of pools, and what is frozen.
pub(crate) type EpochLists = (Option<Rewards>, Snapshots, FrozenState);

/// The update of this epoch that is pending, or that none is, if these lines show that: there are
/// no rewards without an update.
fn pending_of(rows: PendingRows, epoch: u64) -> Option<Option<Rewards>>
    ensures { IsOnly (λ p. is_pending epoch p ≡ true) pending_shown rows result }
{
    let (update, rewards) = rows;
    match update {
        Some((from_reserves, from_fees, to_treasury)) => Some(Some(Rewards {
            epoch,
            from_reserves,
            from_fees,
            to_treasury,
            rewards,
        })),
        None => { if rewards.is_empty() { Some(None) } else { None } }
    }
}

/// The stakes of pools and the noted fees, if mark is in order, each pool once.
fn stakes_of(rows: Stakes) -> Option<Snapshots>
    ensures { IsOnly (λ s. is_map pool_cmp s.mark ≡ true) stakes_shown rows result }
{
    let Stakes {
        mark,
        set,
        go,
        noted_fees,
    } = rows;
    if !is_map(mark.as_slice()) {
        return None;
    }
    Some(Snapshots {
        mark,
        set,
        go,
        fees: noted_fees,
    })
}

/// What epochs add to a state of this epoch and these live proposals, if these lines show such.
/// `NoMemory` may come at any time.
pub(crate) fn epoch_of(
    alloc: Global,
    epoch: u64,
    live: &Listed<Proposal>,
    rows: (PendingRows, Stakes, FrozenRows),
) -> Result<Option<EpochLists>, NoMemory>
    requires { not (repeats action_id_cmp (ids_of live.now)) ≡ true }
    ensures { IfOk result (IsOnly (AreEpochLists epoch live.now) epoch_shown rows) }
{
    let (pending, stakes, frozen) = rows;
    let Some(pending) = pending_of(pending, epoch) else {
        return Ok(None);
    };
    let Some(stakes) = stakes_of(stakes) else {
        return Ok(None);
    };
    let Some(frozen) = frozen_of(alloc, frozen, &stakes.mark, live)? else {
        return Ok(None);
    };
    Ok(Some((pending, stakes, frozen)))
}
