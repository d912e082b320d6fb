ghost use Rattle.std.specs.Prelude.{◌≡◌, map, nat_le, sum_by};
ghost use Rattle.std.specs.List.{list_all};
ghost use Rattle.gov_model.specs.Lineage.{is_last_enacted};
ghost use Rattle.gov_model.specs.Need.{need_of};
ghost use Rattle.gov_model.specs.Ratified.{roles};
ghost use Rattle.gov_model.specs.Ready.{follows_last, has_allowed_terms, is_covered, meets};
ghost use Rattle.gov_model.specs.Snapshot.{Snapshot};
ghost use Rattle.ratify.specs.Passes.{are_met, can_be_enacted, counts_in};
ghost use Rattle.snapshots.specs.Frozen.{frozen_copy_of};

use coin_frac::reaches;
use gov_actions::{Action, EnactState, LastIds, Need, Purpose, Role};
use gov_ids::{Account, ActionId, Credential};
use snapshots::Frozen;
use tally::{TallyCell, need};

// The counts of a cell, in the order of a tally.
pub(crate) fn counts_in(cell: &TallyCell) -> [(u64, u64); 3]
    ensures { result ≡ counts_in cell.now }
{
    [cell.committee, cell.drep, cell.pool]
}

// The need of each role, in the same order.
pub(crate) fn needs_of(f: &Frozen, now: &EnactState, a: &Action) -> [Need; 3]
    ensures { (s : Snapshot) → f.now ≡ frozen_copy_of s → result ≡ map (λ r. need_of r s now.now a.now) roles }
{
    [
        need(f, now, a, Role::Committee),
        need(f, now, a, Role::Drep),
        need(f, now, a, Role::Pool),
    ]
}

// Whether the action follows the last one of its purpose, and parameters and treasury allow it.
pub(crate) fn can_be_enacted(epoch: u64, now: &EnactState, a: &Action) -> bool
    ensures { result ≡ can_be_enacted epoch now.now a.now }
{
    follows_last(now, a) && has_allowed_terms(epoch, now, a) && is_covered(now, a)
}

// Whether each role's count meets what the role needs.
pub(crate) fn are_met(needs: &[Need; 3], counts: &[(u64, u64); 3]) -> bool
    ensures { result ≡ are_met needs.now counts.now }
{
    needs
        .iter()
        .zip(counts)
        .all(|(need, count)| meets(*need, *count))
}

// Whether its previous action, if it has one, is the last enacted one of its purpose.
fn follows_last(now: &EnactState, a: &Action) -> bool
    ensures { result ≡ follows_last now.now a.now }
{
    match a.purpose() {
        Some(purpose) => is_last_enacted(&now.last, purpose, a.previous()),
        None => true,
    }
}

// Whether it is the last enacted action of the purpose.
fn is_last_enacted(last: &LastIds, purpose: Purpose, previous: Option<ActionId>) -> bool
    ensures { result ≡ is_last_enacted last.now purpose previous }
{
    previous == last.of(purpose)
}

// Whether the terms of new members are no longer than the parameters allow.
fn has_allowed_terms(epoch: u64, now: &EnactState, a: &Action) -> bool
    ensures { result ≡ has_allowed_terms epoch now.now a.now }
{
    let last = u128::from(epoch) + u128::from(now.params.committee_max_term_length);
    match a {
        Action::UpdateCommittee { add, .. } => end_by(last, add.as_slice()),
        _ => true,
    }
}

// Whether the terms of these members end by an epoch.
fn end_by(last: u128, members: &[(Credential, u64)]) -> bool
    ensures { result ≡ list_all (λ m. nat_le m.1 last) members.now }
{
    members.iter().all(|m| u128::from(m.1) <= last)
}

// Whether the treasury covers the withdrawals.
fn is_covered(now: &EnactState, a: &Action) -> bool
    ensures { result ≡ is_covered now.now a.now }
{
    match a {
        Action::TreasuryWithdrawals { targets, .. } => covers(now.treasury, targets.as_slice()),
        _ => true,
    }
}

// Whether an amount is enough for all of these.
fn covers(amount: u64, targets: &[(Account, u64)]) -> bool
    ensures { result ≡ nat_le (sum_by (λ t. t.1) targets.now) amount }
{
    let mut left = amount;
    for (_, due) in targets {
        if left < *due {
            return false;
        }
        left -= *due;
    }
    true
}

// Whether a count meets a need.
fn meets(need: Need, count: (u64, u64)) -> bool
    ensures { result ≡ meets need count }
{
    match need {
        Need::Nothing => true,
        Need::Never => false,
        Need::Share(threshold) => reaches(count.0, count.1, threshold),
    }
}
