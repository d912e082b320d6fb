//! The count of the accounts for the DReps, with the deposits that go back to accounts.
ghost use Rattle.std.specs.Prelude.{◌≡◌, ◌<◌, IfOk};
ghost use Rattle.gov_ids.specs.Orders.{credential_cmp};
ghost use Rattle.view_map.specs.View.{frozen_of};
ghost use Rattle.drep_pulser.specs.Facts.{IsCountIn};

use crate::numbers::{Numbers, key};
use crate::stop::{Result, Stop};
use accounts::{AccountBook, Entry, Registered};
use coin_frac::{Steps, TotalMap};
use drep_book::{DrepBook, DrepState};
use drep_pulser::{Counted, Counting, begin};
use gov_ids::{Credential, Drep};
use std::alloc::Global;
use std::marker::Brand;
use std::sync::ledger::{Blank, Ledger};

// A row is refused if its accounts hold more than this.
const MOST: u64 = 1_000_000;

fn drep(kind: u64, byte: u8) -> Option<Drep> {
    match kind {
        0 => None,
        1 => Some(Drep::Registered(key(byte))),
        2 => Some(Drep::Abstain),
        _ => Some(Drep::NoConfidence),
    }
}

// Output stake, whether it is registered, and then rewards and the vote delegation.
fn entry(n: &mut Numbers) -> Entry {
    let stake = n.next();
    let is_registered = n.is_there();
    let registered = Registered {
        deposit: 2,
        rewards: n.next(),
        pool: None,
        drep: drep(n.next(), n.next_byte()),
    };
    Entry {
        stake,
        registered: if is_registered {
            Some(registered)
        } else {
            None
        },
    }
}

fn accounts(alloc: Global, n: &mut Numbers) -> Result<AccountBook> {
    let mut book = AccountBook::new(alloc);
    for _ in 0..n.next() {
        let cred = n.key();
        book.put(cred, entry(n))?;
    }
    book.freeze();
    Ok(book)
}

fn registered(alloc: Global, dreps: &[(Credential, u64)]) -> Result<DrepBook> {
    let mut book = DrepBook::new(alloc);
    for (cred, expiry) in dreps {
        let state = DrepState {
            deposit: 5,
            expiry: *expiry,
        };
        book.put(*cred, state)?;
    }
    Ok(book)
}

fn deposit(deposits: &mut TotalMap<Credential>, to: Credential, amount: u64) -> Result<()> {
    if deposits.total() > MOST || amount > MOST {
        return Err(Stop);
    }
    Ok(deposits.put(to, amount)?)
}

fn deposits(alloc: Global, n: &mut Numbers) -> Result<TotalMap<Credential>> {
    let mut all = TotalMap::new(alloc);
    for _ in 0..n.next() {
        let to = n.key();
        deposit(&mut all, to, n.next())?;
    }
    Ok(all)
}

// A count of the frozen entries, which hold little.
fn begun(
    alloc: Global,
    book: &AccountBook,
    dreps: &DrepBook,
    deposits: &TotalMap<Credential>,
) -> Result<Counting>
    ensures { IfOk result (IsCountIn (frozen_of credential_cmp book.now)) }
{
    let mut held = deposits.total();
    for (_, entry) in book.frozen_past(None) {
        let rewards = entry.registered.map_or(0, |r| r.rewards);
        if held > MOST || entry.stake > MOST || rewards > MOST {
            return Err(Stop);
        }
        held += entry.stake + rewards;
    }
    Ok(begin(alloc, book, dreps, deposits, 1)?)
}

fn finished<L: Ledger>(
    alloc: Global,
    blank: Blank,
    dreps: &[(Credential, u64)],
    n: &mut Numbers,
) -> Result<Counted>
    requires name { blank.name ≡ L.name }
    requires parts { blank.parts ≡ L.parts }
    requires some { 0 < L.parts }
{
    let book = accounts(alloc, n)?;
    let deposits = deposits(alloc, n)?;
    let dreps = registered(alloc, dreps)?;
    let mut steps = Steps::<L>::open(blank);
    Ok(begun(alloc, &book, &dreps, &deposits)?.finish(&book, &mut steps))
}

// All accounts counted for these DReps.
pub(crate) fn counted(
    alloc: Global,
    dreps: &[(Credential, u64)],
    n: &mut Numbers,
) -> Result<Counted> {
    finished::<Brand>(alloc, Blank::new(1), dreps, n)
}
