//! A store of proposals with votes, some removed. (Its functions serve the tests of chains.)
ghost use Rattle.std.specs.Prelude.{◌≡◌, []};

use coin_frac::Unit;
use credential_list::CredentialList;
use gov_actions::{Action, Proposal, Purpose, Vote};
use gov_ids::{Account, ActionId, CredKind, Credential, TxId, Voter};
use hash_seed::HashSeed;
use listed::Listed;
use proposal_store::ProposalStore;
use std::alloc::Global;
use std::process::Abort;
use std::test::Fail;

pub fn id(byte: u8) -> ActionId {
    ActionId {
        tx: TxId([byte; 32]),
        index: 0,
    }
}

/// A hard fork after the action of this byte.
pub fn fork_after(previous: u8) -> Action {
    Action::HardForkInitiation {
        previous: Some(id(previous)),
        version: (11, 0),
    }
}

fn key(byte: u8) -> Credential {
    Credential {
        hash: [byte; 28],
        kind: CredKind::Key,
    }
}

fn proposal(alloc: Global, byte: u8, action: Action) -> Proposal
    ensures deposit { result.deposit ≡ 10 }
    ensures votes { result.votes ≡ [] }
{
    Proposal {
        id: id(byte),
        action,
        deposit: 10,
        account: Account {
            network: 1,
            cred: key(9),
        },
        expires_after: 6,
        votes: Listed::new(alloc),
    }
}

/// Adds the action of this byte to a store that holds little and has none of that byte.
pub fn add(
    rt: &impl Abort,
    store: &mut ProposalStore,
    alloc: Global,
    byte: u8,
    action: Action,
) -> Result<(), Fail> {
    let p = proposal(alloc, byte, action);
    assert!(rt; store.get(&p.id).is_none());
    assert!(rt; store.deposits() < 1000);
    store.add(p)?;
    Ok(())
}

/// Three proposals, and votes on two of them and on none.
fn voted_on(rt: &impl Abort, alloc: Global) -> Result<ProposalStore, Fail> {
    let mut store = ProposalStore::new(alloc, HashSeed::new(1, 2));
    for byte in [2, 1, 3] {
        add(rt, &mut store, alloc, byte, fork_after(2))?;
    }
    for (proposal, byte, vote) in [
        (1, 7, Vote::Yes),
        (1, 5, Vote::No),
        (2, 7, Vote::No),
        (1, 7, Vote::Abstain),
        (9, 7, Vote::Yes),
    ] {
        store.vote(&id(proposal), Voter::Drep(key(byte)), vote)?;
    }
    Ok(store)
}

/// The removed proposals have both voters, each with its last vote.
#[test]
fn keeps_votes_and_what_is_listed(rt: HostRuntime) -> Result<(), Fail> {
    let mut store = voted_on(&rt, rt.alloc())?;
    let removed = store.retain_listed([id(3), id(7), id(2)].as_slice())?;
    assert!(rt; store.len() == 2 && store.deposits() == 20);
    let Some(first) = removed.first() else {
        return Err(Fail::from("nothing is removed"));
    };
    let first = first.copied(rt.alloc())?;
    assert!(rt; first.id == id(1) && first.votes.len() == 2);
    Ok(())
}

/// An update of the committee that adds the cold keys of these bytes.
fn adding(alloc: Global, bytes: &[u8]) -> Result<Action, Fail> {
    let mut add = Listed::new(alloc);
    for byte in bytes {
        add.push((key(*byte), 9))?;
    }
    Ok(Action::UpdateCommittee {
        previous: None,
        remove: CredentialList::new(alloc),
        add,
        threshold: Unit::new(1, 2)?,
    })
}

/// Five proposals: the second and the fourth add a cold key twice each, with two votes of a DRep.
fn with_members(rt: &impl Abort, alloc: Global) -> Result<ProposalStore, Fail> {
    let mut store = voted_on(rt, alloc)?;
    let members = adding(alloc, [4, 4, 6].as_slice())?;
    add(rt, &mut store, alloc, 4, members)?;
    let members = adding(alloc, [4].as_slice())?;
    add(rt, &mut store, alloc, 5, members)?;
    store.vote(&id(5), Voter::Drep(key(7)), Vote::Yes)?;
    Ok(store)
}

/// The first proposals remain, with their votes, their children and the keys that they add.
#[test]
fn keeps_the_first(rt: HostRuntime) -> Result<(), Fail> {
    for (n, len, voted, children, adds) in [
        (9, 5, 3, 3, (true, true)),
        (5, 5, 3, 3, (true, true)),
        (4, 4, 2, 3, (true, true)),
        (3, 3, 2, 3, (false, false)),
        (2, 2, 2, 2, (false, false)),
        (1, 1, 1, 1, (false, false)),
        (0, 0, 0, 0, (false, false)),
    ] {
        let mut store = with_members(&rt, rt.alloc())?;
        store.keep_first(n);
        assert!(rt; store.len() == len && store.deposits() == 10 * len);
        assert!(rt; store.voted_on(&key(7)).len() == voted);
        assert!(rt; store.children(Purpose::HardFork, Some(id(2))).len() == children);
        assert!(rt; (store.adds(&key(4)), store.adds(&key(6))) == adds);
    }
    Ok(())
}

/// A store that was cut is cut again, and grows again.
#[test]
fn keeps_the_first_of_what_is_listed(rt: HostRuntime) -> Result<(), Fail> {
    let mut store = with_members(&rt, rt.alloc())?;
    drop(store.retain_listed([id(5), id(2), id(4)].as_slice())?);
    store.keep_first(2);
    assert!(rt; store.get(&id(4)).is_some() && store.get(&id(5)).is_none());
    assert!(rt; store.voted_on(&key(7)) == [id(2)].as_slice());
    add(&rt, &mut store, rt.alloc(), 5, fork_after(2))?;
    store.vote(&id(5), Voter::Drep(key(7)), Vote::No)?;
    assert!(rt; store.voted_on(&key(7)) == [id(2), id(5)].as_slice());
    Ok(())
}

/// A DRep that votes and takes its vote back has one note at most.
#[test]
fn votes_and_unvotes_in_turn(rt: HostRuntime) -> Result<(), Fail> {
    let mut store = voted_on(&rt, rt.alloc())?;
    let voter = Voter::Drep(key(7));
    for _ in 0..1000 {
        store.vote(&id(3), voter, Vote::Yes)?;
        assert!(rt; store.voted_on(&key(7)) == [id(1), id(2), id(3)].as_slice());
        store.unvote(&id(3), &voter);
        assert!(rt; store.voted_on(&key(7)) == [id(1), id(2)].as_slice());
    }
    store.unvote(&id(9), &voter);
    store.unvote(&id(1), &voter);
    store.unvote(&id(2), &voter);
    assert!(rt; store.voted_on(&key(7)).is_empty() && store.voted_on(&key(5)).len() == 1);
    Ok(())
}
