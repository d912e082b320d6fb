ghost use Rattle.std.specs.Prelude.{◌≡◌, ◌+◌, ◌<◌, ◌≤◌, ◌^◌, ◌++◌, IfOk, OnOk, length, map, sum_by};
ghost use Rattle.gov_model.specs.Proposals.{deposits_of};
ghost use Rattle.ledger_model.specs.Transaction.{made_proposal, made_proposals, with_votes};
ghost use Rattle.live_ledger.specs.Proposed.{IsUnknown};
ghost use Rattle.tx_records.specs.declared.tx.ProposalRecord.{ProposalRecord};

use coin_frac::NoMemory;
use gov_actions::Proposal;
use gov_ids::ActionId;
use listed::Listed;
use proposal_store::ProposalStore;
use std::alloc::Global;
use tx_records::{ProposalRecord, Tx};

/// Casts a transaction's votes, then adds its proposals; `last` is the last epoch to vote on these.
/// After `NoMemory` the caller drops the store. (GOV of the formal specification)
pub fn add_tx_proposals(
    alloc: Global,
    store: &mut ProposalStore,
    last: u64,
    tx: &Tx,
) -> Result<(), NoMemory>
    requires few { length tx.now.proposals ≤ 65536 }
    requires unknown { IsUnknown tx.now.id (map (with_votes tx.now) store.old) }
    requires room { deposits_of (map (with_votes tx.now) store.old)
        + sum_by (λ (p : ProposalRecord). p.deposit) tx.now.proposals < 2 ^ 64 }
    ensures { OnOk result (store.new ≡ map (with_votes tx.now) store.old ++ made_proposals last tx.now) }
{
    cast_votes(store, tx)?;
    add_proposals(alloc, store, last, tx)?;
    Ok(())
}

/// Casts the votes of a transaction; a voter's later vote replaces the earlier one.
/// (GOV of the formal specification)
fn cast_votes(store: &mut ProposalStore, tx: &Tx) -> Result<(), NoMemory>
    ensures { OnOk result (store.new ≡ map (with_votes tx.now) store.old) }
{
    for cast in tx.votes.as_slice() {
        store.vote(&cast.action, cast.voter, cast.vote)?;
    }
    Ok(())
}

/// Adds a transaction's proposals, as id#0, id#1 and so on, with no votes.
/// `last` is the last epoch in which they may be voted on. (GOV of the formal specification)
fn add_proposals(
    alloc: Global,
    store: &mut ProposalStore,
    last: u64,
    tx: &Tx,
) -> Result<(), NoMemory>
    requires few { length tx.now.proposals ≤ 65536 }
    requires unknown { IsUnknown tx.now.id store.old }
    requires room { deposits_of store.old + sum_by (λ (p : ProposalRecord). p.deposit) tx.now.proposals < 2 ^ 64 }
    ensures { OnOk result (store.new ≡ store.old ++ made_proposals last tx.now) }
{
    for (index, proposal) in tx.proposals.as_slice().iter().enumerate() {
        let id = ActionId {
            tx: tx.id,
            index: index as u16,
        };
        store.add(made(alloc, id, last, proposal)?)?;
    }
    Ok(())
}

/// What the ledger stores of a proposal.
fn made(
    alloc: Global,
    id: ActionId,
    last: u64,
    proposal: &ProposalRecord,
) -> Result<Proposal, NoMemory>
    ensures { IfOk result (λ made. made ≡ made_proposal last id.tx id.index proposal.now) }
{
    Ok(Proposal {
        id,
        action: proposal.action.copied(alloc)?,
        deposit: proposal.deposit,
        account: proposal.account,
        expires_after: last,
        votes: Listed::new(alloc),
    })
}
