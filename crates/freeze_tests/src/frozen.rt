//! Three proposals with deposits from two accounts, and a pool of mark.
//! One account delegates to the pool.
ghost use Rattle.std.specs.Prelude.{◌≡◌, []};

use accounts::{AccountBook, Entry, Registered};
use cert_pool::PoolBook;
use freeze::{copied_proposals, deposits_by_account, deposits_by_pool, frozen_pools};
use gov_actions::{Action, Proposal};
use gov_ids::{Account, ActionId, CredKind, Credential, PoolId, TxId};
use hash_seed::HashSeed;
use listed::Listed;
use no_memory::NoMemory;
use proposal_store::ProposalStore;
use snapshots::DefaultVote;
use std::alloc::Global;
use std::process::Abort;
use std::test::Fail;

const POOL: PoolId = PoolId([50; 28]);

fn key(byte: u8) -> Credential {
    Credential {
        hash: [byte; 28],
        kind: CredKind::Key,
    }
}

/// A proposal that asks for nothing; its deposit goes back to the account of a key.
fn info(alloc: Global, byte: u8, deposit: u64, account: u8) -> Proposal
    ensures deposit { result.deposit ≡ deposit }
    ensures votes { result.votes ≡ [] }
{
    Proposal {
        id: ActionId {
            tx: TxId([byte; 32]),
            index: 0,
        },
        action: Action::Info,
        deposit,
        account: Account {
            network: 1,
            cred: key(account),
        },
        expires_after: 6,
        votes: Listed::new(alloc),
    }
}

/// Adds a proposal to a store that holds little and does not have it.
fn add(
    rt: &impl Abort,
    alloc: Global,
    store: &mut ProposalStore,
    proposal: (u8, u64, u8),
) -> Result<(), Fail> {
    let (byte, deposit, account) = proposal;
    let p = info(alloc, byte, deposit, account);
    assert!(rt; store.get(&p.id).is_none());
    assert!(rt; store.deposits() < 1000);
    assert!(rt; p.deposit < 1000);
    store.add(p)?;
    Ok(())
}

/// A registered account that delegates to this pool, or to none.
fn registered(pool: Option<PoolId>) -> Entry {
    Entry {
        stake: 0,
        registered: Some(Registered {
            deposit: 2,
            rewards: 0,
            pool,
            drep: None,
        }),
    }
}

/// The three proposals.
fn three(rt: &impl Abort, alloc: Global) -> Result<ProposalStore, Fail> {
    let mut store = ProposalStore::new(alloc, HashSeed::new(1, 2));
    for proposal in [(1, 10, 7), (2, 5, 8), (3, 7, 7)] {
        add(rt, alloc, &mut store, proposal)?;
    }
    Ok(store)
}

/// The two accounts; the first delegates to the pool.
fn two(alloc: Global) -> Result<AccountBook, NoMemory> {
    let mut accounts = AccountBook::new(alloc);
    accounts.put(key(7), registered(Some(POOL)))?;
    accounts.put(key(8), registered(None))?;
    Ok(accounts)
}

#[test]
fn copies_proposals(rt: HostRuntime) -> Result<(), Fail> {
    let store = three(&rt, rt.alloc())?;
    assert!(rt; copied_proposals(rt.alloc(), &store)?.len() == 3);
    Ok(())
}

#[test]
fn adds_up_deposits(rt: HostRuntime) -> Result<(), Fail> {
    let store = three(&rt, rt.alloc())?;
    let by_account = deposits_by_account(rt.alloc(), &store)?;
    assert!(rt; (by_account.get(&key(7)), by_account.get(&key(8))) == (17, 5));
    Ok(())
}

#[test]
fn freezes_pools(rt: HostRuntime) -> Result<(), Fail> {
    let alloc = rt.alloc();
    let store = three(&rt, alloc)?;
    let accounts = two(alloc)?;
    let by_pool = deposits_by_pool(alloc, &store, &accounts)?;
    assert!(rt; by_pool.total() < 1000);
    let pools = PoolBook::new(alloc);
    let frozen = frozen_pools(alloc, &[(POOL, 100)], &pools, &accounts, &by_pool)?;
    let first = frozen.get(0).copied().ok_or("no pool")?;
    assert!(rt; (first.pool, first.stake) == (POOL, 117));
    assert!(rt; first.account.is_none() && first.default_vote == DefaultVote::No);
    Ok(())
}
