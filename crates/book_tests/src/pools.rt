//! The book of pools: later registrations, ends of epochs, restored entries, keys of other pools.
use book_records::{Pool, PoolTerms};
use cert_pool::{PoolBook, Reaped};
use coin_frac::Unit;
use gov_ids::{Account, CredKind, Credential, PoolId};
use std::alloc::Global;
use std::test::Fail;

fn pool(byte: u8) -> PoolId {
    PoolId([byte; 28])
}

fn account(byte: u8) -> Account {
    let cred = Credential {
        hash: [byte; 28],
        kind: CredKind::Key,
    };
    Account { network: 1, cred }
}

fn terms(margin: Unit, to: u8) -> PoolTerms {
    PoolTerms {
        cost: 3,
        pledge: 0,
        margin,
        account: account(to),
        key: None,
    }
}

fn terms_with_key(margin: Unit, key: u8) -> PoolTerms {
    PoolTerms {
        key: Some([key; 32]),
        ..terms(margin, 10)
    }
}

fn reaped(byte: u8, to: u8) -> Reaped {
    Reaped {
        pool: pool(byte),
        deposit: 5,
        account: account(to),
    }
}

/// Pools 50 to 52 with a deposit of 5; later terms for 50 and 51.
/// 52 and 51 retire after epochs 1 and 2; 50 retires no more.
fn book(alloc: Global, margin: Unit) -> Result<PoolBook, Fail> {
    let mut book = PoolBook::new(alloc);
    book.retire(&pool(50), 1);
    for (byte, to, deposit) in [(52, 12, 5), (50, 10, 5), (51, 11, 5)] {
        book.register(pool(byte), terms(margin, to), deposit)?;
        book.retire(&pool(byte), 1);
    }
    for (byte, to) in [(50, 20), (51, 21)] {
        book.register(pool(byte), terms(margin, to), 9)?;
    }
    book.retire(&pool(51), 2);
    Ok(book)
}

/// The epoch, the pools reaped then, and the deposits' accounts: 51 has its later terms by then.
#[test]
fn reaps_the_pools_of_an_epoch(rt: HostRuntime) -> Result<(), Fail> {
    let margin = Unit::new(0, 1)?;
    let mut book = book(rt.alloc(), margin)?;
    for (epoch, wanted) in [
        (1, [reaped(52, 12)].as_slice()),
        (2, [reaped(51, 21)].as_slice()),
        (3, [].as_slice()),
    ] {
        let gone = book.reap(epoch)?;
        assert!(rt; gone.as_slice() == wanted);
    }
    let turned = Pool {
        deposit: 5,
        terms: terms(margin, 20),
        future: None,
        retires: None,
    };
    assert!(rt; book.get(&pool(50)) == Some(turned));
    book.restore(pool(50), None)?;
    book.restore(pool(60), Some(turned))?;
    assert!(rt; book.get(&pool(50)).is_none() && book.get(&pool(60)) == Some(turned));
    let ids = book.ids(rt.alloc())?;
    assert!(rt; ids.as_slice() == [pool(60)].as_slice());
    Ok(())
}

/// Whether each key is one of another pool than the named one, if and only if that is wanted.
fn are_keys(book: &PoolBook, wanted: &[(u8, u8, bool)]) -> bool {
    wanted.iter().all(|(key, byte, of_other)| book.key_of_other(&[*key; 32], &pool(*byte))
        == *of_other)
}

/// Pool 50 has key 1 and in its future terms key 2; 51 and 52 share key 3, and 52 leaves.
#[test]
fn tells_the_keys_of_other_pools(rt: HostRuntime) -> Result<(), Fail> {
    let margin = Unit::new(0, 1)?;
    let mut book = PoolBook::new(rt.alloc());
    for (byte, key) in [(50, 1), (50, 2), (51, 3), (52, 3)] {
        book.register(pool(byte), terms_with_key(margin, key), 5)?;
    }
    book.retire(&pool(52), 1);
    let before = [
        (1, 50, false),
        (1, 51, true),
        (2, 50, false),
        (2, 51, true),
        (3, 51, true),
        (3, 60, true),
        (4, 60, false),
    ];
    assert!(rt; are_keys(&book, &before));
    book.reap(1)?;
    let after = [
        (1, 51, false),
        (2, 50, false),
        (2, 51, true),
        (3, 51, false),
        (3, 60, true),
    ];
    assert!(rt; are_keys(&book, &after));
    book.restore(pool(51), None)?;
    assert!(rt; are_keys(&book, &[(3, 60, false)]));
    Ok(())
}
