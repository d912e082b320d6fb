//! A count in pulses: of what was frozen, whatever changes meanwhile, and of no accounts.
ghost use Rattle.std.specs.Prelude.{◌≡◌, ◌<◌, IfOk};
ghost use Rattle.gov_ids.specs.Orders.{credential_cmp};
ghost use Rattle.view_map.specs.View.{frozen_of};
ghost use Rattle.drep_pulser.specs.Facts.{IsCountIn};

use accounts::{AccountBook, Entry, Registered};
use coin_frac::{NoMemory, Steps, TotalMap};
use drep_book::{DrepBook, DrepState};
use drep_pulser::{Counting, Pulser, begin};
use gov_ids::{CredKind, Credential, Drep};
use std::alloc::Global;
use std::marker::Brand;
use std::process::Abort;
use std::sync::ledger::{Blank, Ledger};
use std::test::Fail;

const BOB: u8 = 30;

const EVE: u8 = 31;

fn key(byte: u8) -> Credential {
    Credential {
        hash: [byte; 28],
        kind: CredKind::Key,
    }
}

fn drep(byte: u8) -> Drep {
    Drep::Registered(key(byte))
}

// The reward balance of an account, and the byte of the DRep to which it delegates or 0.
fn entry(rewards: u64, to: u8) -> Entry {
    let delegation = match to {
        0 => None,
        byte => Some(drep(byte)),
    };
    Entry {
        stake: 0,
        registered: Some(Registered {
            deposit: 2,
            rewards,
            pool: None,
            drep: delegation,
        }),
    }
}

fn put_all(book: &mut AccountBook, entries: [(u8, u64, u8); 3]) -> Result<(), NoMemory>
    ensures { frozen_of credential_cmp book.new ≡ frozen_of credential_cmp book.old }
{
    let [first, second, third] = entries;
    book.put(key(first.0), entry(first.1, first.2))?;
    book.put(key(second.0), entry(second.1, second.2))?;
    book.put(key(third.0), entry(third.1, third.2))?;
    Ok(())
}

// Two DReps; the second expired long ago.
fn dreps(alloc: Global) -> Result<DrepBook, NoMemory> {
    let mut dreps = DrepBook::new(alloc);
    for (byte, expiry) in [(BOB, 20), (EVE, 0)] {
        dreps.put(key(byte), DrepState { deposit: 5, expiry })?;
    }
    Ok(dreps)
}

// A count of the frozen entries, which hold little.
fn begun(
    rt: &impl Abort,
    alloc: Global,
    book: &AccountBook,
    deposits: &TotalMap<Credential>,
) -> Result<Counting, NoMemory>
    ensures { IfOk result (IsCountIn (frozen_of credential_cmp book.now)) }
{
    let mut held = deposits.total();
    for (_, entry) in book.frozen_past(None) {
        let rewards = entry.registered.map_or(0, |r| r.rewards);
        assert!(rt; held < 1000);
        assert!(rt; entry.stake < 1000);
        assert!(rt; rewards < 1000);
        held += entry.stake + rewards;
    }
    begin(alloc, book, &dreps(alloc)?, deposits, 1)
}

// Visits one, changes entries before and after the cursor, then visits the rest.
fn counts_what_was_frozen_on<L: Ledger>(
    rt: &impl Abort,
    alloc: Global,
    blank: Blank,
) -> Result<(), NoMemory>
    requires name { blank.name ≡ L.name }
    requires parts { blank.parts ≡ L.parts }
    requires some { 0 < L.parts }
{
    let mut steps = Steps::<L>::open(blank);
    let mut book = AccountBook::new(alloc);
    put_all(&mut book, [(10, 67, BOB), (11, 33, EVE), (12, 0, 0)])?;
    book.freeze();
    let deposits = TotalMap::new(alloc);
    let counting = begun(rt, alloc, &book, &deposits)?;
    let Pulser::Counting(counting) = counting.pulse(&book, 1, &mut steps) else {
        panic!(rt; "one of three is all");
    };
    let seen = [
        counting.done(),
        counting.total(),
        counting.partial(&drep(BOB)),
        counting.partial(&drep(EVE)),
    ];
    assert_eq!(rt; seen, [1, 3, 67, 0]);
    put_all(&mut book, [(5, 0, EVE), (10, 67, EVE), (11, 0, BOB)])?;
    let Pulser::Counted(counted) = counting.pulse(&book, 2, &mut steps) else {
        panic!(rt; "three of three are not all");
    };
    let seen = [
        counted.total(),
        counted.stake(&drep(BOB)),
        counted.stake(&drep(EVE)),
    ];
    assert_eq!(rt; seen, [3, 67, 33]);
    Ok(())
}

// A pulse of the greatest size, over no entries.
fn ends_on<L: Ledger>(rt: &impl Abort, alloc: Global, blank: Blank) -> Result<(), NoMemory>
    requires name { blank.name ≡ L.name }
    requires parts { blank.parts ≡ L.parts }
    requires some { 0 < L.parts }
{
    let mut steps = Steps::<L>::open(blank);
    let none = AccountBook::new(alloc);
    let deposits = TotalMap::new(alloc);
    let pulser = begun(rt, alloc, &none, &deposits)?.pulse(&none, u32::MAX, &mut steps);
    assert!(rt; matches!(pulser, Pulser::Counted(_)));
    Ok(())
}

#[test]
fn counts_in_pulses(rt: HostRuntime) -> Result<(), Fail> {
    counts_what_was_frozen_on::<Brand>(&rt, rt.alloc(), Blank::new(1))?;
    Ok(ends_on::<Brand>(&rt, rt.alloc(), Blank::new(1))?)
}
