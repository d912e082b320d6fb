//! From any cursor, any number of workers gets the stakes that one gets; each enters the gate once.
ghost use Rattle.std.specs.Prelude.{◌≡◌, ◌<◌, ◌≤◌, IfOk};
ghost use Rattle.gov_ids.specs.Orders.{credential_cmp};
ghost use Rattle.view_map.specs.View.{frozen_of};
ghost use Rattle.drep_pulser.specs.Facts.{IsCountIn};

use accounts::{AccountBook, Entry, Registered};
use coin_frac::{NoMemory, Steps, TotalMap};
use drep_book::{DrepBook, DrepState};
use drep_pulser::{Counted, Counting, Pulser, begin};
use gov_ids::{CredKind, Credential, Drep};
use par_count::{Gate, finish_shared};
use std::alloc::Global;
use std::marker::Brand;
use std::process::Abort;
use std::sync::atomic::{AtomicU64, Ordering};
use std::sync::ledger::{Blank, Ledger};
use std::test::Fail;
use std::thread::Threads;

const BOB: u8 = 30;

const EVE: u8 = 31;

// The first byte of an account's hash and its others, the reward balance, and the byte of the DRep.
const ACCOUNTS: [(u8, u8, u64, u8); 6] = [
    (0, 0, 1, BOB),
    (0, 255, 2, EVE),
    (127, 255, 4, BOB),
    (128, 0, 8, EVE),
    (255, 0, 16, BOB),
    (255, 255, 32, EVE),
];

// A gate that adds up 2 to the power of each worker that enters.
#[derive(Drop)]
struct Entered(AtomicU64);

impl Gate for Entered {
    fn enter(&self, worker: u32) {
        self.0
            .fetch_add(1u64.checked_shl(worker).unwrap_or(0), Ordering::SeqCst);
    }
}

fn key(first: u8, others: u8) -> Credential {
    let mut hash = [others; 28];
    hash[0] = first;
    Credential {
        hash,
        kind: CredKind::Key,
    }
}

fn drep(byte: u8) -> Drep {
    Drep::Registered(key(byte, byte))
}

// The frozen entries of the first so many accounts.
fn frozen(alloc: Global, accounts: usize) -> Result<AccountBook, NoMemory> {
    let mut book = AccountBook::new(alloc);
    for (first, others, rewards, to) in ACCOUNTS.iter().take(accounts) {
        let entry = Entry {
            stake: 0,
            registered: Some(Registered {
                deposit: 2,
                rewards: *rewards,
                pool: None,
                drep: Some(drep(*to)),
            }),
        };
        book.put(key(*first, *others), entry)?;
    }
    book.freeze();
    Ok(book)
}

fn dreps(alloc: Global) -> Result<DrepBook, NoMemory> {
    let mut dreps = DrepBook::new(alloc);
    for byte in [BOB, EVE] {
        let state = DrepState {
            deposit: 5,
            expiry: 20,
        };
        dreps.put(key(byte, byte), state)?;
    }
    Ok(dreps)
}

// A deposit of 100 goes back to the first account.
fn deposits(alloc: Global) -> Result<TotalMap<Credential>, NoMemory> {
    let mut deposits = TotalMap::new(alloc);
    deposits.put(key(0, 0), 100)?;
    Ok(deposits)
}

// A count of the frozen entries, which hold little.
fn begun(
    rt: &impl Abort,
    alloc: Global,
    book: &AccountBook,
    deposits: &TotalMap<Credential>,
    workers: u32,
) -> Result<Counting, NoMemory>
    requires some { 1 ≤ workers }
    requires few { workers ≤ 64 }
    ensures { IfOk result (IsCountIn (frozen_of credential_cmp book.now)) }
{
    let mut held = deposits.total();
    for (_, entry) in book.frozen_past(None) {
        let rewards = entry.registered.map_or(0, |r| r.rewards);
        assert!(rt; held < 1000);
        assert!(rt; entry.stake < 1000);
        assert!(rt; rewards < 1000);
        held += entry.stake + rewards;
    }
    begin(alloc, book, &dreps(alloc)?, deposits, workers)
}

// The count after so many visits, which leave an entry.
fn visited<L: Ledger>(
    rt: &impl Abort,
    blank: Blank,
    counting: Counting,
    book: &AccountBook,
    visits: u32,
) -> Counting
    requires name { blank.name ≡ L.name }
    requires parts { blank.parts ≡ L.parts }
    requires ledger { 0 < L.parts }
    requires counts { IsCountIn (frozen_of credential_cmp book.now) counting }
    ensures { IsCountIn (frozen_of credential_cmp book.now) result }
{
    if visits == 0 {
        return counting;
    }
    let mut steps = Steps::<L>::open(blank);
    let Pulser::Counting(counting) = counting.pulse(book, visits, &mut steps) else {
        panic!(rt; "so many are not all");
    };
    counting
}

// A count of these workers after so many visits.
fn left(
    rt: &impl Abort,
    alloc: Global,
    book: &AccountBook,
    visits: u32,
    workers: u32,
) -> Result<Counting, NoMemory>
    requires some { 1 ≤ workers }
    requires few { workers ≤ 64 }
    ensures { IfOk result (IsCountIn (frozen_of credential_cmp book.now)) }
{
    let counting = begun(rt, alloc, book, &deposits(alloc)?, workers)?;
    Ok(visited::<Brand>(rt, Blank::new(1), counting, book, visits))
}

// What is left, visited by one.
fn finished<L: Ledger>(blank: Blank, counting: Counting, book: &AccountBook) -> Counted
    requires name { blank.name ≡ L.name }
    requires parts { blank.parts ≡ L.parts }
    requires ledger { 0 < L.parts }
    requires counts { IsCountIn (frozen_of credential_cmp book.now) counting }
{
    let mut steps = Steps::<L>::open(blank);
    counting.finish(book, &mut steps)
}

// The number of entries, and the stakes.
fn seen(counted: &Counted) -> [u64; 3] {
    [
        counted.total(),
        counted.stake(&drep(BOB)),
        counted.stake(&drep(EVE)),
    ]
}

// Accounts, visits before, workers of `begin`, workers wanted, those that enter, and what is seen.
type Row = (usize, u32, u32, u32, u32, [u64; 3]);

// What one worker alone sees after so many visits.
fn alone(
    rt: &impl Abort,
    alloc: Global,
    book: &AccountBook,
    visits: u32,
) -> Result<[u64; 3], NoMemory> {
    let counting = left(rt, alloc, book, visits, 1)?;
    Ok(seen(&finished::<Brand>(Blank::new(1), counting, book)))
}

// How many visits a copy of a count has behind it.
fn done(alloc: Global, counting: &Counting) -> Result<u64, NoMemory> {
    Ok(counting.copied(alloc)?.done())
}

// What these workers see after so many visits, with so many reserved, and who entered the gate.
fn shared<R: Threads + Abort + Sync>(
    rt: &R,
    alloc: Global,
    book: &AccountBook,
    visits: u32,
    reserved: u32,
    workers: u32,
) -> Result<([u64; 3], u64), NoMemory>
    requires reserved { (1 ≤ reserved) × (reserved ≤ 64) }
    requires workers { (1 ≤ workers) × (workers ≤ 64) }
{
    let counting = left(rt, alloc, book, visits, reserved)?;
    assert_eq!(rt; done(alloc, &counting)?, u64::from(visits));
    let gate = Entered(AtomicU64::new(0));
    let counted = finish_shared(rt, counting, book, workers, &gate);
    Ok((seen(&counted), gate.0.load(Ordering::SeqCst)))
}

fn compare<R: Threads + Abort + Sync>(rt: &R, alloc: Global, row: Row) -> Result<(), NoMemory> {
    let (accounts, visits, reserved, workers, entering, wanted) = row;
    assert!(rt; 1 <= reserved);
    assert!(rt; reserved <= 64);
    assert!(rt; 1 <= workers);
    assert!(rt; workers <= 64);
    assert!(rt; 1 <= entering);
    assert!(rt; entering <= 64);
    let book = frozen(alloc, accounts)?;
    assert_eq!(rt; alone(rt, alloc, &book, visits)?, wanted, "at {row:?}");
    let entered = u64::MAX >> (64 - entering);
    assert_eq!(rt;
        shared(rt, alloc, &book, visits, reserved, workers)?,
        (wanted, entered),
        "at {row:?}"
    );
    Ok(())
}

#[test]
fn workers_count_what_one_counts(rt: HostRuntime) -> Result<(), Fail> {
    let none = [0, 0, 0];
    let all = [6, 121, 42];
    let rows = [
        (0, 0, 1, 1, 1, none),
        (0, 0, 64, 64, 64, none),
        (6, 0, 1, 1, 1, all),
        (6, 0, 2, 2, 2, all),
        (6, 0, 3, 3, 3, all),
        (6, 0, 64, 64, 64, all),
        (6, 0, 3, 64, 3, all),
        (6, 0, 64, 2, 2, all),
        (6, 5, 1, 1, 1, all),
        (6, 5, 2, 2, 2, all),
        (6, 5, 64, 64, 64, all),
    ];
    for row in rows {
        compare(&rt, rt.alloc(), row)?;
    }
    Ok(())
}
