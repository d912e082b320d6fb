ghost use Rattle.std.specs.Prelude.{◌≡◌, ◌++◌, ◌||◌, IfOk, OnOk, map};
ghost use Rattle.gov_ids.specs.declared.ActionId.{ActionId};
ghost use Rattle.gov_ids.specs.declared.Voter.{Voter};
ghost use Rattle.gov_ids.specs.declared.Voter.TheVariants.{Drep};
ghost use Rattle.ledger_model.specs.Transaction.{with_votes};
ghost use Rattle.proposal_store.specs.Leaving.{without_votes_of};
ghost use Rattle.run_model.specs.SoundWorld.{AreSoundProposals};
ghost use Rattle.std.specs.List.{AllZip};
ghost use Rattle.tx_records.specs.declared.tx.VoteRecord.{VoteRecord};
ghost use Rattle.undo_before.specs.Names.{cast_names, is_lost, is_named};
ghost use Rattle.undo_before.specs.Old.{old_votes_at, vote_on};
ghost use Rattle.undo_model.specs.Holds.{HoldsOldVotes};

use gov_actions::Vote;
use gov_ids::{ActionId, Credential, Voter};
use listed::Listed;
use no_memory::NoMemory;
use proposal_store::ProposalStore;
use std::alloc::Global;
use tx_records::{Tx, VoteRecord};

/// The votes that a transaction with good scripts replaces, and those of the DReps that left.
pub fn votes_of_passed(
    alloc: Global,
    store: &ProposalStore,
    tx: &Tx,
    left: &[Credential],
) -> Result<Listed<((ActionId, Voter), Option<Vote>)>, NoMemory>
    requires sound { AreSoundProposals store.now }
    ensures { IfOk result (λ olds. AllZip (HoldsOldVotes olds) store.now
        (map (with_votes tx.now) (map (without_votes_of left.now) store.now))) }
{
    let names = vote_names(alloc, store, tx, left)?;
    old_votes(alloc, store, names.as_slice())
}

/// The votes that a transaction casts, and those of DReps that left.
fn vote_names(
    alloc: Global,
    store: &ProposalStore,
    tx: &Tx,
    left: &[Credential],
) -> Result<Vec<(ActionId, Voter)>, NoMemory>
    ensures { IfOk result (λ all. (id : ActionId) (v : Voter) → is_named all.items id v ≡
        (is_named (cast_names tx.now) id v || is_lost left.now store.now id v)) }
{
    let mut all = cast_votes(alloc, tx.votes.as_slice())?;
    for drep in left {
        add_votes(&mut all, drep, store.voted_on(drep))?;
    }
    Ok(all)
}

/// The votes that are cast.
fn cast_votes(alloc: Global, votes: &[VoteRecord]) -> Result<Vec<(ActionId, Voter)>, NoMemory>
    ensures { IfOk result (λ all. all.items ≡ map (λ (x : VoteRecord). (x.action, x.voter)) votes.now) }
{
    let mut all = Vec::new(alloc);
    for cast in votes {
        all.push((cast.action, cast.voter))?;
    }
    Ok(all)
}

/// Adds the votes of a DRep on these actions.
fn add_votes(
    all: &mut Vec<(ActionId, Voter)>,
    drep: &Credential,
    ids: &[ActionId],
) -> Result<(), NoMemory>
    ensures { OnOk result (all.new.items ≡ all.old.items ++ map (λ id. (id, Drep drep.now)) ids.now) }
{
    for id in ids {
        all.push((*id, Voter::Drep(*drep)))?;
    }
    Ok(())
}

/// The votes of these voters on these actions.
fn old_votes(
    alloc: Global,
    store: &ProposalStore,
    names: &[(ActionId, Voter)],
) -> Result<Listed<((ActionId, Voter), Option<Vote>)>, NoMemory>
    ensures { IfOk result (λ olds. olds ≡ old_votes_at store.now names.now) }
{
    let mut olds = Vec::new(alloc);
    for name in names {
        olds.push((*name, vote_on(store, name)))?;
    }
    Ok(Listed::from_vec(olds))
}

/// The vote of a voter on an action; none where there is no such proposal.
fn vote_on(store: &ProposalStore, name: &(ActionId, Voter)) -> Option<Vote>
    ensures { result ≡ vote_on store.now name.now.0 name.now.1 }
{
    let (id, voter) = name;
    store.get(id)?.vote_of(voter)
}
