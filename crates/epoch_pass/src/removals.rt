ghost use Rattle.std.specs.Prelude.{◌≡◌, ◌+◌, ◌<◌, ◌^◌, ℕ, map, IfOk, OnOk};
ghost use Rattle.epoch_pass.specs.Removals.{leaving_of, refund_of, refunds_of, removed_by};
ghost use Rattle.epoch_pass.specs.Reported.{AreDecided, removed_in};
ghost use Rattle.gov_model.specs.Kept.{kept_of};
ghost use Rattle.gov_model.specs.Laws.{HaveDistinctIds};
ghost use Rattle.gov_model.specs.Snapshot.{Snapshot};
ghost use Rattle.ledger_books.specs.Parts.{HoldsSupply, frozen_entries, ledger_of_books, world_of_books};
ghost use Rattle.ledger_model.specs.Flows.{deposits};
ghost use Rattle.ledger_model.specs.Moves.{IsMovedBy};
ghost use Rattle.ledger_model.specs.Supply.{pots_of};
ghost use Rattle.payments.specs.Amounts.{all_amounts};
ghost use Rattle.payments.specs.Credited.{ArePaidOut};
ghost use Rattle.run_model.specs.Boundary.{proposal_refunds, removals_made, removed_proposals};
ghost use Rattle.run_model.specs.BoundaryFlows.{payment};
ghost use Rattle.stake_book.specs.Stakes.{AreKept, HasRoom, accounts_of};

use crate::reports::removed_of;
use epoch_balance::cuts_balance;
use gov_actions::{EnactState, LastIds};
use gov_ids::{ActionId, Credential};
use ledger_books::Books;
use lineage::kept_after;
use listed::Boxed;
use no_memory::NoMemory;
use payments::paid_out;
use proposal_store::{LiveProposal, ProposalStore};
use stake_book::StakeBook;
use std::alloc::Global;
use tx_balance::moves_keep_supply;
use tx_records::Removed;

/// Step 6: removes the enacted, the expired and the no longer enactable proposals.
/// Each deposit goes to its return account, or to the treasury if that is not registered.
/// Returns the report of each, in order of submission. (EPOCH of the formal specification)
pub fn removals_made(
    alloc: Global,
    b: Books,
    ratified: &[ActionId],
    expired: &[ActionId],
) -> Result<(Books, Vec<Removed>), NoMemory>
    requires holds { HoldsSupply b }
    ensures world { IfOk result (λ r. (counted : ℕ) (f : Snapshot) → AreDecided f ratified.now expired.now →
        world_of_books r.0 counted f ≡ removals_made (world_of_books b counted f)) }
    ensures removed { IfOk result (λ r. (counted : ℕ) (f : Snapshot) → AreDecided f ratified.now expired.now →
        r.1.items ≡ map (removed_in (world_of_books b counted f)) (removed_proposals (world_of_books b counted f))) }
    ensures frozen { IfOk result (λ r. frozen_entries r.0 ≡ frozen_entries b) }
    ensures holds { IfOk result (λ r. HoldsSupply r.0) }
    ensures moved { IfOk result (λ r. (counted : ℕ) (f : Snapshot) → AreDecided f ratified.now expired.now →
        IsMovedBy (map (payment deposits (ledger_of_books b)) (proposal_refunds (world_of_books b counted f)))
        (pots_of (ledger_of_books b)) (pots_of (ledger_of_books r.0))) }
{
    moves_keep_supply();
    cuts_balance();
    let mut b = b;
    match refunded(alloc, b.stake, b.state, &mut b.proposals, ratified, expired) {
        Ok((stake, state, removed)) => Ok((Books { stake, state, ..b }, removed)),
        Err(error) => {
            // dropped in one call: a `?` would prove it part by part
            drop((b.pools, b.dreps, b.hot, b.proposals, b.snapshots, b.pending));
            Err(error)
        }
    }
}

// Removes the proposals that leave, pays out their deposits and reports each.
fn refunded(
    alloc: Global,
    stake: StakeBook,
    state: Boxed<EnactState>,
    proposals: &mut ProposalStore,
    ratified: &[ActionId],
    expired: &[ActionId],
) -> Result<(StakeBook, Boxed<EnactState>, Vec<Removed>), NoMemory>
    requires room { HasRoom (all_amounts (refunds_of
        (leaving_of proposals.old ratified.now expired.now state.last))) stake }
    requires fits { state.treasury + all_amounts (refunds_of
        (leaving_of proposals.old ratified.now expired.now state.last)) < 2 ^ 64 }
    ensures kept { OnOk result (proposals.new ≡ kept_of proposals.old ratified.now expired.now state.last) }
    ensures removed { IfOk result (λ r. r.2.items ≡ map (removed_by (accounts_of stake) ratified.now expired.now)
        (leaving_of proposals.old ratified.now expired.now state.last)) }
    ensures paid { IfOk result (λ r. ArePaidOut (refunds_of
        (leaving_of proposals.old ratified.now expired.now state.last)) stake state r.0 r.1) }
    ensures distinct { HaveDistinctIds proposals.old }
    ensures accounts { AreKept stake }
{
    // each account occurs once
    let _accounts = stake.balances();
    let last = &state.get().last;
    let (refunds, removed) = leaving(alloc, &stake, last, proposals, ratified, expired)?;
    let (stake, state) = paid_out(alloc, stake, state, refunds.as_slice())?;
    Ok((stake, state, removed))
}

// Removes the proposals that leave; gives their deposits with return accounts, and their reports.
fn leaving(
    alloc: Global,
    stake: &StakeBook,
    last: &LastIds,
    proposals: &mut ProposalStore,
    ratified: &[ActionId],
    expired: &[ActionId],
) -> Result<(Vec<(Credential, u64)>, Vec<Removed>), NoMemory>
    ensures kept { OnOk result (proposals.new ≡ kept_of proposals.old ratified.now expired.now last.now) }
    ensures refunds { IfOk result (λ r. r.0.items ≡
        refunds_of (leaving_of proposals.old ratified.now expired.now last.now)) }
    ensures removed { IfOk result (λ r. r.1.items ≡ map (removed_by (accounts_of stake.now) ratified.now expired.now)
        (leaving_of proposals.old ratified.now expired.now last.now)) }
    ensures distinct { HaveDistinctIds proposals.old }
{
    let leaving = cut(alloc, proposals, ratified, expired, last)?;
    let removed = removed_of(alloc, stake, leaving.as_slice(), ratified, expired)?;
    let refunds = refunds_of(alloc, leaving.as_slice())?;
    Ok((refunds, removed))
}

// Keeps the proposals that stay, and gives the others in order of submission.
fn cut(
    alloc: Global,
    proposals: &mut ProposalStore,
    ratified: &[ActionId],
    expired: &[ActionId],
    last: &LastIds,
) -> Result<Vec<LiveProposal>, NoMemory>
    ensures kept { OnOk result (proposals.new ≡ kept_of proposals.old ratified.now expired.now last.now) }
    ensures removed { IfOk result (λ l. l.items ≡ leaving_of proposals.old ratified.now expired.now last.now) }
    ensures distinct { HaveDistinctIds proposals.old }
{
    // the contract of `len` says that no two have one id
    let _distinct = proposals.len();
    let kept = kept_after(alloc, proposals, ratified, expired, last)?;
    proposals.retain_listed(kept.as_slice())
}

// Their deposits, each with its return account.
fn refunds_of(alloc: Global, proposals: &[LiveProposal]) -> Result<Vec<(Credential, u64)>, NoMemory>
    ensures { IfOk result (λ l. l.items ≡ map refund_of proposals.now) }
{
    let mut refunds = Vec::new(alloc);
    for p in proposals {
        refunds.push((p.account().cred, p.deposit()))?;
    }
    Ok(refunds)
}
