ghost use Rattle.std.specs.Prelude.{◌≡◌, ◌+◌, ◌≤◌, ◌^◌, ◌<◌, ℕ, Some, map, IfOk};
ghost use Rattle.epoch_pass.specs.Reported.{by_credential, paid_in};
ghost use Rattle.epoch_steps.specs.Decisions.{AreOfPass};
ghost use Rattle.epoch_steps.specs.Halves.{after_all, after_paying, removed_from};
ghost use Rattle.gov_model.specs.Snapshot.{Snapshot};
ghost use Rattle.epoch_ends.specs.of_ledger_books.Parts.{HoldsSupply, IsStep, frozen_entries, ledger_of_books, world_of_books};
ghost use Rattle.run_model.specs.Boundary.{after_pools, claimed};
ghost use Rattle.run_model.specs.Laws.{IsCoveredUpdate};
ghost use Rattle.run_model.specs.Report.{retired_of};
ghost use Rattle.tx_records.specs.declared.record.Rewards.{Rewards};

use epoch_books::{pools_reaped, snapshots_turned, update_applied};
use epoch_ends::of_ledger_books::Books;
use epoch_ends::{donations_joined, dormancy_noted, members_only, next_epoch};
use epoch_pass::{enacted, removals_made, withdrawals_paid};
use gov_actions::EnactState;
use gov_ids::{Account, ActionId};
use no_memory::NoMemory;
use std::alloc::Global;
use tx_records::{Paid, Removed, Retired};

/// Steps 1 to 3: applies the pending reward update, rotates the snapshots, and reaps pools.
/// Returns the report of each reaped pool, in order of id.
/// (NEWEPOCH, SNAP and POOLREAP of the formal specification)
pub fn before_pass(alloc: Global, b: Books) -> Result<(Books, Vec<Retired>), NoMemory>
    requires holds { HoldsSupply b }
    requires covered { (u : Rewards) → b.pending ≡ Some u → IsCoveredUpdate (ledger_of_books b) u }
    requires early { b.epoch + 1 < 2 ^ 64 }
    ensures world { IfOk result (λ r. IsStep after_pools b r.0) }
    ensures retired { IfOk result (λ r. (counted : ℕ) (f : Snapshot) → r.1.items ≡ retired_of (world_of_books b counted f)) }
    ensures frozen { IfOk result (λ r. frozen_entries r.0 ≡ frozen_entries b) }
    ensures holds { IfOk result (λ r. HoldsSupply r.0) }
{
    let applied = update_applied(alloc, b)?;
    let turned = snapshots_turned(alloc, applied)?;
    let (reaped, retired) = pools_reaped(alloc, turned)?;
    Ok((reaped, retired))
}

/// Steps 4 to 9 and the next epoch's number: enacts, pays withdrawals, removes proposals, moves
/// donations to the treasury, keeps only members' hot keys, sets the dormant count. Returns the
/// reports of targets and of removed proposals. (ENACT and EPOCH of the formal specification)
pub fn after_pass(
    alloc: Global,
    b: Books,
    ratified: &[ActionId],
    expired: &[ActionId],
    state: EnactState,
    targets: &[(Account, u64)],
) -> Result<(Books, Vec<Paid>, Vec<Removed>), NoMemory>
    requires holds { HoldsSupply b }
    requires of_pass { (f : Snapshot) × AreOfPass f ratified.now expired.now state targets.now }
    requires covered { claimed (ledger_of_books b) (by_credential targets.now) ≤ b.state.treasury }
    requires awake { b.dreps.dormant + 1 < 2 ^ 64 }
    requires early { b.epoch + 1 < 2 ^ 64 }
    ensures world { IfOk result (λ r. (counted : ℕ) (f : Snapshot) →
        AreOfPass f ratified.now expired.now state targets.now →
        world_of_books r.0 counted f ≡ after_all (world_of_books b counted f)) }
    ensures paid { IfOk result (λ r. r.1.items ≡ map (paid_in (ledger_of_books b)) targets.now) }
    ensures removed { IfOk result (λ r. (counted : ℕ) (f : Snapshot) →
        AreOfPass f ratified.now expired.now state targets.now →
        r.2.items ≡ removed_from (after_paying (world_of_books b counted f))) }
    ensures frozen { IfOk result (λ r. frozen_entries r.0 ≡ frozen_entries b) }
{
    let enacted = enacted(alloc, b, state)?;
    let (paid_books, paid) = withdrawals_paid(alloc, enacted, targets)?;
    let (cut, removed) = removals_made(alloc, paid_books, ratified, expired)?;
    let joined = donations_joined(alloc, cut)?;
    Ok((
        next_epoch(dormancy_noted(members_only(joined))),
        paid,
        removed,
    ))
}
