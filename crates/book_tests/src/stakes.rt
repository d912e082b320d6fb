//! The book of stake: the stakes of pools, the balances and the outputs after each call.
use assets::Assets;
use book_records::{Output, Registered};
use coin_frac::NoMemory;
use gov_ids::{Address, CredKind, Credential, Drep, OutRef, PoolId, TxId};
use hash_seed::HashSeed;
use stake_book::StakeBook;
use std::alloc::Global;
use std::process::Abort;
use std::test::Fail;

fn key(byte: u8) -> Credential {
    Credential {
        hash: [byte; 28],
        kind: CredKind::Key,
    }
}

fn at(tx: u8) -> OutRef {
    OutRef {
        tx: TxId([tx; 32]),
        index: 0,
    }
}

fn held_by(stake: Option<Credential>, lovelace: u64) -> Output {
    let address = Address {
        network: 0,
        payment: key(9),
        stake,
    };
    let assets = Assets::none();
    Output {
        address,
        lovelace,
        assets,
    }
}

fn pool(byte: u8) -> PoolId {
    PoolId([byte; 28])
}

/// A registration with a balance, which delegates to a pool and to the DRep of a credential.
fn delegating(rewards: u64, to: PoolId, voter: Credential) -> Option<Registered> {
    Some(Registered {
        deposit: 2,
        rewards,
        pool: Some(to),
        drep: Some(Drep::Registered(voter)),
    })
}

/// Adds an output to a book that holds little and has none at `r`.
fn add(rt: &impl Abort, book: &mut StakeBook, r: OutRef, o: Output) -> Result<(), NoMemory> {
    assert!(rt; book.outputs().get(&r).is_none());
    assert!(rt; book.outputs().total() < 1000);
    assert!(rt; book.balances() < 1000);
    assert!(rt; o.lovelace < 1000);
    book.add(r, o)
}

/// Sets a registration with a small balance in a book that holds little.
fn set(
    rt: &impl Abort,
    book: &mut StakeBook,
    c: Credential,
    to: Option<Registered>,
) -> Result<(), NoMemory> {
    assert!(rt; book.outputs().total() < 1000);
    assert!(rt; book.balances() < 1000);
    assert!(rt; to.map_or(0, |r| r.rewards) < 1000);
    book.set_account(c, to)
}

/// Two accounts that delegate to pool 5 and DRep 31, and one that delegates to pool 6 and DRep 32.
/// 7 lovelace belong to no account.
fn three_accounts(rt: &impl Abort, alloc: Global) -> Result<StakeBook, NoMemory> {
    let mut book = StakeBook::new(alloc, HashSeed::new(1, 2));
    set(rt, &mut book, key(1), delegating(3, pool(5), key(31)))?;
    set(rt, &mut book, key(2), delegating(4, pool(5), key(31)))?;
    set(rt, &mut book, key(3), delegating(5, pool(6), key(32)))?;
    add(rt, &mut book, at(1), held_by(Some(key(1)), 10))?;
    add(rt, &mut book, at(2), held_by(Some(key(1)), 20))?;
    add(rt, &mut book, at(3), held_by(Some(key(3)), 40))?;
    add(rt, &mut book, at(4), held_by(None, 7))?;
    Ok(book)
}

/// A change of the book.
#[derive(Clone, Copy)]
enum Change {
    Nothing,
    Spend(u8),
    Move,
    End,
    ClearPool,
    ClearPools,
    ClearDrep,
    Use,
}

/// The book of three accounts, after the change.
fn changed(rt: &impl Abort, alloc: Global, change: Change) -> Result<StakeBook, NoMemory> {
    let mut book = three_accounts(rt, alloc)?;
    match change {
        Change::Nothing => book.freeze(),
        Change::Spend(tx) => {
            book.spend(&at(tx))?;
        }
        Change::Move => set(rt, &mut book, key(1), delegating(1, pool(6), key(31)))?,
        Change::End => set(rt, &mut book, key(2), None)?,
        Change::ClearPool => book.clear_pool(&pool(5))?,
        Change::ClearPools => book.clear_pools(&[pool(6), pool(5), pool(6)])?,
        Change::ClearDrep => book.clear_drep(&key(31))?,
        Change::Use => book.mark_used(TxId([3; 32]))?,
    }
    Ok(book)
}

/// The change; then the stakes of pools 5 and 6, the balances and the outputs.
#[test]
fn keeps_the_stake_of_pools(rt: HostRuntime) -> Result<(), Fail> {
    for (change, wanted) in [
        (Change::Nothing, [37, 45, 12, 77]),
        (Change::Spend(2), [17, 45, 12, 57]),
        (Change::Spend(4), [37, 45, 12, 70]),
        (Change::Spend(9), [37, 45, 12, 77]),
        (Change::Move, [4, 76, 10, 77]),
        (Change::End, [33, 45, 8, 77]),
        (Change::ClearPool, [0, 45, 12, 77]),
        (Change::ClearPools, [0, 0, 12, 77]),
        (Change::ClearDrep, [37, 45, 12, 77]),
        (Change::Use, [37, 45, 12, 77]),
    ] {
        let book = changed(&rt, rt.alloc(), change)?;
        let left = [
            book.pool_stake(&pool(5)),
            book.pool_stake(&pool(6)),
            book.balances(),
            book.outputs().total(),
        ];
        assert!(rt; left == wanted);
    }
    Ok(())
}
