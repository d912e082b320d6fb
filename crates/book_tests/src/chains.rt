//! Actions in chains: what may follow what, and what remains after enactment or expiry.
use crate::proposals::{add, fork_after, id};
use coin_frac::NoMemory;
use gov_actions::{Action, LastIds};
use hash_seed::HashSeed;
use lineage::{kept_after, may_follow};
use proposal_store::ProposalStore;
use std::alloc::Global;
use std::process::Abort;
use std::test::Fail;

/// The last actions, if the hard fork of this byte was enacted and no other action.
fn last_of(hardfork: u8) -> LastIds {
    LastIds {
        committee: None,
        constitution: None,
        hardfork: Some(id(hardfork)),
        parameters: None,
    }
}

fn dismissal(previous: Option<u8>) -> Action {
    Action::NoConfidence {
        previous: previous.map(id),
    }
}

/// Hard forks 2, 3, 4 in a chain after 1, and 8 before the 7 that it follows.
/// 5 is of another purpose, and 6 of none.
fn forks_and_others(rt: &impl Abort, alloc: Global) -> Result<ProposalStore, Fail> {
    let mut store = ProposalStore::new(alloc, HashSeed::new(1, 2));
    for (byte, previous) in [(2, 1), (3, 2), (4, 3), (8, 7), (7, 1)] {
        add(rt, &mut store, alloc, byte, fork_after(previous))?;
    }
    add(rt, &mut store, alloc, 5, dismissal(None))?;
    add(rt, &mut store, alloc, 6, Action::Info)?;
    Ok(store)
}

#[test]
fn tells_what_may_follow(rt: HostRuntime) -> Result<(), Fail> {
    let last = last_of(1);
    let store = forks_and_others(&rt, rt.alloc())?;
    let first = Action::HardForkInitiation {
        previous: None,
        version: (11, 0),
    };
    for (action, may) in &[
        (fork_after(1), true),
        (fork_after(2), true),
        (fork_after(5), false),
        (fork_after(9), false),
        (first, false),
        (dismissal(None), true),
        (dismissal(Some(5)), true),
        (dismissal(Some(1)), false),
        (Action::Info, true),
    ] {
        assert!(rt; may_follow(&store, &last, action) == *may);
    }
    Ok(())
}

/// The bytes of the proposals that remain.
fn kept(
    alloc: Global,
    store: &ProposalStore,
    enacted: u8,
    expired: u8,
    hardfork: u8,
) -> Result<Vec<u8>, NoMemory> {
    let last = last_of(hardfork);
    let ids = kept_after(alloc, store, &[id(enacted)], &[id(expired)], &last)?;
    let mut bytes = Vec::new(alloc);
    for kept_id in &ids {
        bytes.push(kept_id.tx.0[0])?;
    }
    Ok(bytes)
}

/// Enacted, expired (0 is none of them) and the last hard fork, and what remains.
#[test]
fn tells_which_proposals_stay(rt: HostRuntime) -> Result<(), Fail> {
    let store = forks_and_others(&rt, rt.alloc())?;
    for (enacted, expired, hardfork, wanted) in [
        (0, 0, 1, [2, 3, 4, 8, 7, 5, 6].as_slice()),
        (0, 3, 1, [2, 8, 7, 5, 6].as_slice()),
        (5, 7, 1, [2, 3, 4, 6].as_slice()),
        (2, 0, 2, [3, 4, 5, 6].as_slice()),
    ] {
        let bytes = kept(rt.alloc(), &store, enacted, expired, hardfork)?;
        assert!(rt; bytes.as_slice() == wanted);
    }
    Ok(())
}
