//! The book of hot keys: entries authorized, undone and taken over, and which keys members seat.
use coin_frac::{NoMemory, Unit};
use committee_book::HotBook;
use gov_actions::{Committee, HotState, MemberList};
use gov_ids::{CredKind, Credential};
use std::alloc::Global;
use std::test::Fail;

fn key(byte: u8) -> Credential {
    Credential {
        hash: [byte; 28],
        kind: CredKind::Key,
    }
}

/// The hot key of this byte, and a resignation for 0.
fn state(hot: u8) -> HotState {
    if hot == 0 {
        HotState::Resigned
    } else {
        HotState::Hot(key(hot))
    }
}

fn book(alloc: Global, entries: &[(u8, u8)]) -> Result<HotBook, NoMemory> {
    let mut book = HotBook::new(alloc);
    for (cold, hot) in entries {
        book.set(key(*cold), state(*hot))?;
    }
    Ok(book)
}

#[test]
fn keeps_what_cold_keys_authorized(rt: HostRuntime) -> Result<(), Fail> {
    let first = [(3, 13), (1, 11), (4, 0), (2, 12), (2, 11)];
    let later = [(1, 13), (3, 0), (5, 15)];
    let changed = book(rt.alloc(), later.as_slice())?;
    let mut book = book(rt.alloc(), first.as_slice())?.with_all(changed)?;
    book.restore(key(4), Some(state(14)))?;
    book.restore(key(5), None)?;
    for (cold, wanted) in [
        (1, Some(state(13))),
        (2, Some(state(11))),
        (3, Some(state(0))),
        (4, Some(state(14))),
        (5, None),
    ] {
        assert!(rt; book.get(&key(cold)) == wanted);
    }
    for (hot, count) in [(11, 1), (12, 0), (13, 1), (14, 1), (15, 0)] {
        assert!(rt; book.count_of(&key(hot)) == count);
    }
    let listed = book.listed(rt.alloc())?;
    let wanted = [
        (key(1), state(13)),
        (key(2), state(11)),
        (key(3), state(0)),
        (key(4), state(14)),
    ];
    assert!(rt; listed.as_slice() == wanted.as_slice());
    Ok(())
}

#[test]
fn seats_the_hot_keys_of_members(rt: HostRuntime) -> Result<(), Fail> {
    let members = Vec::from_slice(
        rt.alloc(),
        [(key(1), 9), (key(2), 9), (key(4), 9)].as_slice(),
    )?;
    let committee = Committee {
        members: MemberList::from_vec(members),
        threshold: Unit::new(2, 3)?,
    };
    let changed = book(rt.alloc(), [(1, 13), (3, 12)].as_slice())?;
    let book = book(
        rt.alloc(),
        [(1, 11), (2, 12), (3, 11), (4, 0), (5, 14), (6, 12)].as_slice(),
    )?;
    for (hot, among_all, beside_changed) in [
        (11, true, false),
        (12, true, true),
        (13, false, false),
        (14, false, false),
    ] {
        assert!(rt; book.seats(&key(hot), Some(&committee), None) == among_all);
        assert!(rt; book.seats(&key(hot), Some(&committee), Some(&changed)) == beside_changed);
        assert!(rt; !book.seats(&key(hot), None, None));
    }
    Ok(())
}

/// One member, and two changed keys that took its hot key: more than the members.
#[test]
fn seats_among_fewer_members(rt: HostRuntime) -> Result<(), Fail> {
    let members = Vec::from_slice(rt.alloc(), [(key(2), 9)].as_slice())?;
    let committee = Committee {
        members: MemberList::from_vec(members),
        threshold: Unit::new(2, 3)?,
    };
    let changed = book(rt.alloc(), [(2, 13)].as_slice())?;
    let book = book(
        rt.alloc(),
        [(1, 11), (2, 11), (3, 11), (4, 12), (5, 12)].as_slice(),
    )?;
    assert!(rt; book.seats(&key(11), Some(&committee), None));
    assert!(rt; !book.seats(&key(11), Some(&committee), Some(&changed)));
    assert!(rt; !book.seats(&key(12), Some(&committee), None));
    Ok(())
}
