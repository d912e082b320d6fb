ghost use Rattle.std.specs.Prelude.{◌≡◌, ◌++◌, IfOk, OnOk};
ghost use Rattle.std.specs.Map.{keys_of};
ghost use Rattle.maps.specs.Words.{some_and};
ghost use Rattle.stake_book.specs.Stakes.{delegates_to_dreps, registrations};
ghost use Rattle.undo_before.specs.Names.{account_names, delegating_entries, delegators, drep_names};

use accounts::AccountBook;
use book_records::{Entry, Registered};
use draft_changes::ChangedNames;
use drep_book::DrepBook;
use gov_ids::{Credential, Drep};
use maps::set_of;
use no_memory::NoMemory;
use std::alloc::Global;
use std::collections::BTreeSet;

/// The accounts that changes touch. It scans the accounts only if a DRep left.
pub fn account_names(
    alloc: Global,
    book: &AccountBook,
    names: &ChangedNames,
) -> Result<Vec<Credential>, NoMemory>
    ensures { IfOk result (λ all. all.items ≡ account_names names.now (registrations book.now.live)) }
{
    let mut all: Vec<Credential> = names.accounts.as_slice().iter().copied().collect(alloc)?;
    if names.left.is_empty() {
        return Ok(all);
    }
    add_delegators(alloc, &mut all, book, names.left.as_slice())?;
    Ok(all)
}

/// Adds the accounts that delegate to these DReps, in one scan of all.
fn add_delegators(
    alloc: Global,
    all: &mut Vec<Credential>,
    book: &AccountBook,
    left: &[Credential],
) -> Result<(), NoMemory>
    ensures { OnOk result (all.new.items ≡ all.old.items ++ delegators left.now (registrations book.now.live)) }
{
    let left = set_of(alloc, left)?;
    add_those(all, book, &left)
}

/// Adds the accounts that delegate to one of these DReps.
fn add_those(
    all: &mut Vec<Credential>,
    book: &AccountBook,
    left: &BTreeSet<Credential>,
) -> Result<(), NoMemory>
    ensures { OnOk result (all.new.items ≡ all.old.items ++ delegating_entries left.now.keys book.now.live) }
{
    for (c, entry) in book.iter() {
        if delegates(entry, left) {
            all.push(*c)?;
        }
    }
    Ok(())
}

/// Whether an entry is registered and delegates its vote to one of these DReps.
fn delegates(entry: &Entry, left: &BTreeSet<Credential>) -> bool
    ensures { result ≡ some_and (delegates_to_dreps left.now.keys) entry.now.registered }
{
    match &entry.registered {
        Some(r) => votes_by(r, left),
        None => false,
    }
}

/// Whether a registration delegates its vote to one of these DReps.
fn votes_by(r: &Registered, dreps: &BTreeSet<Credential>) -> bool
    ensures { result ≡ delegates_to_dreps dreps.now.keys r.now }
{
    match &r.drep {
        Some(Drep::Registered(c)) => dreps.contains(c),
        Some(Drep::Abstain | Drep::NoConfidence) | None => false,
    }
}

/// The DReps that changes touch: all of them where the dormant epochs are added.
pub fn drep_names(
    alloc: Global,
    book: &DrepBook,
    names: &ChangedNames,
) -> Result<Vec<Credential>, NoMemory>
    ensures { IfOk result (λ all. all.items ≡ drep_names names.now book.now.dreps) }
{
    let mut all: Vec<Credential> = names.dreps.as_slice().iter().copied().collect(alloc)?;
    if !names.refreshed {
        return Ok(all);
    }
    add_registered(alloc, &mut all, book)?;
    Ok(all)
}

/// Adds all registered DReps.
#[tactic(auto, using(crate::proofs::Touched::keys_of_expiries))]
fn add_registered(alloc: Global, all: &mut Vec<Credential>, book: &DrepBook) -> Result<(), NoMemory>
    ensures { OnOk result (all.new.items ≡ all.old.items ++ keys_of book.now.dreps) }
{
    let dreps = book.expiries(alloc)?;
    for (c, _) in &dreps {
        all.push(*c)?;
    }
    Ok(())
}
