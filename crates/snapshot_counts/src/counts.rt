//! The stakes of DReps of a snapshot of plain lists.
ghost use Rattle.std.specs.Prelude.{◌≡◌, ◌+◌, ◌^◌, ◌<◌, true, IfOk, OnOk};
ghost use Rattle.drep_pulser.specs.Facts.{ForSnapshotOf, IsCountIn, IsCountedOf};
ghost use Rattle.gov_ids.specs.declared.Credential.{Credential};
ghost use Rattle.gov_ids.specs.Orders.{credential_cmp};
ghost use Rattle.gov_model.specs.Proposals.{deposits_of};
ghost use Rattle.gov_model.specs.Snapshot.{Snapshot};
ghost use Rattle.maps.specs.Maps.{has_key, sum_values, with_values};
ghost use Rattle.run_model.specs.SoundWorld.{held_by};
ghost use Rattle.text_forms.specs.Ids.{is_map};
ghost use Rattle.view_map.specs.View.{frozen_of};
ghost use Rattle.snapshot_counts.specs.Kept.{kept_entries, kept_entry, registered};

use accounts::AccountBook;
use book_records::{DrepState, Entry, Registered};
use coin_frac::{NoMemory, Steps};
use drep_book::DrepBook;
use drep_pulser::{Counted, Counting, begin};
use frozen_lists::deposits_by_account;
use gov_actions::Proposal;
use gov_ids::Credential;
use listed::Listed;
use std::alloc::Global;
use std::marker::Brand;
use std::sync::ledger::{Blank, Ledger};

/// The stakes of these DReps over these entries, with the deposits of these proposals, in lovelace.
/// `NoMemory` may come at any time.
pub(crate) fn counted_of(
    alloc: Global,
    entries: Listed<(Credential, Entry)>,
    dreps: &[(Credential, u64)],
    proposals: &[Proposal],
) -> Result<Counted, NoMemory>
    requires in_order { is_map credential_cmp entries ≡ true }
    requires room { sum_values held_by entries + deposits_of proposals.now < 2 ^ 64 }
    ensures { IfOk result (λ counted. (s : Snapshot) → s.entries ≡ entries → s.dreps ≡ dreps.now →
        s.proposals ≡ proposals.now → IsCountedOf s counted) }
{
    let deposits = deposits_by_account(alloc, proposals)?;
    let registered = dreps_of(alloc, dreps)?;
    let book = book_of(alloc, entries)?;
    let counting = begin(alloc, &book, &registered, &deposits, 1)?;
    Ok(finished::<Brand>(Blank::new(1), counting, &book))
}

/// A book in which these DReps are registered, each with its expiry.
fn dreps_of(alloc: Global, dreps: &[(Credential, u64)]) -> Result<DrepBook, NoMemory>
    ensures { IfOk result (λ book. (c : Credential) →
        has_key credential_cmp dreps.now c ≡ has_key credential_cmp book.dreps c) }
{
    let mut book = DrepBook::new(alloc);
    add_dreps(&mut book, dreps)?;
    Ok(book)
}

/// Registers DReps, each with its expiry.
fn add_dreps(book: &mut DrepBook, dreps: &[(Credential, u64)]) -> Result<(), NoMemory>
    ensures { OnOk result (book.new.dreps ≡ with_values credential_cmp (registered dreps.now) book.old.dreps) }
{
    for (credential, expiry) in dreps {
        let drep = DrepState {
            deposit: 0,
            expiry: *expiry,
        };
        book.put(*credential, drep)?;
    }
    Ok(())
}

/// A book that has these entries at its last freeze.
fn book_of(alloc: Global, entries: Listed<(Credential, Entry)>) -> Result<AccountBook, NoMemory>
    requires { is_map credential_cmp entries ≡ true }
    ensures { IfOk result (λ book. frozen_of credential_cmp book ≡ kept_entries entries) }
{
    let mut book = AccountBook::new(alloc);
    add_entries(&mut book, entries.as_slice())?;
    book.freeze();
    Ok(book)
}

/// Adds entries.
fn add_entries(book: &mut AccountBook, entries: &[(Credential, Entry)]) -> Result<(), NoMemory>
    ensures { OnOk result (book.new.live ≡ with_values credential_cmp (kept_entries entries.now) book.old.live) }
{
    for (credential, entry) in entries {
        book.put(*credential, kept_entry(entry))?;
    }
    Ok(())
}

/// An entry as a book keeps it. No book keeps one without stake and registration; a registered one
/// that holds nothing and delegates to nobody adds as little.
fn kept_entry(entry: &Entry) -> Entry
    ensures { result ≡ kept_entry entry.now }
{
    if entry.stake == 0 && entry.registered.is_none() {
        Entry {
            stake: 0,
            registered: Some(Registered {
                deposit: 0,
                rewards: 0,
                pool: None,
                drep: None,
            }),
        }
    } else {
        *entry
    }
}

/// A count after all its entries. It takes no memory.
fn finished<L: Ledger>(blank: Blank, counting: Counting, book: &AccountBook) -> Counted
    requires name { blank.name ≡ L.name }
    requires parts { blank.parts ≡ L.parts }
    requires some { 0 < L.parts }
    requires counts { IsCountIn (frozen_of credential_cmp book.now) counting }
    ensures { ForSnapshotOf (frozen_of credential_cmp book.now) counting (λ s. IsCountedOf s result) }
{
    let mut steps = Steps::<L>::open(blank);
    counting.finish(book, &mut steps)
}
