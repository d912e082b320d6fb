//! The book of accounts after a freeze: the frozen entries and the current ones.
use accounts::AccountBook;
use book_records::Entry;
use coin_frac::NoMemory;
use gov_ids::{CredKind, Credential};
use std::alloc::Global;
use std::test::Fail;

fn key(byte: u8) -> Credential {
    Credential {
        hash: [byte; 28],
        kind: CredKind::Key,
    }
}

fn staked(stake: u64) -> Entry {
    Entry {
        stake,
        registered: None,
    }
}

/// Two frozen entries, and four changes after the freeze.
fn changed(alloc: Global) -> Result<AccountBook, NoMemory> {
    let mut book = AccountBook::new(alloc);
    book.put(key(1), staked(10))?;
    book.put(key(2), staked(20))?;
    book.freeze();
    for (byte, stake) in [(1, 11), (2, 0), (3, 0), (0, 5)] {
        book.put(key(byte), staked(stake))?;
    }
    Ok(book)
}

#[test]
fn keeps_the_frozen_entries(rt: HostRuntime) -> Result<(), Fail> {
    let book = changed(rt.alloc())?;
    for (byte, frozen, live) in [
        (0, None, Some(5)),
        (1, Some(10), Some(11)),
        (2, Some(20), None),
        (3, None, None),
    ] {
        assert!(rt; book.frozen_get(&key(byte)).map(|e| e.stake) == frozen);
        assert!(rt; book.get(&key(byte)).map(|e| e.stake) == live);
    }
    let next = book.frozen_past(Some(&key(1))).next();
    assert!(rt; next == Some((key(2), staked(20))));
    let first = book.iter().next().map(|(c, e)| (*c, *e));
    assert!(rt; first == Some((key(0), staked(5))));
    Ok(())
}
