//! The count of frozen entries.
ghost use Rattle.std.specs.Prelude.{◌≡◌, ◌+◌, ◌≤◌, ◌^◌, ◌<◌, length, IfOk};
ghost use Rattle.drep_pulser.specs.Facts.{IsCountIn, IsCountOf, held_by};
ghost use Rattle.drep_pulser.specs.Pulsers.{IsPulserOf, done_by};
ghost use Rattle.gov_ids.specs.declared.Credential.{Credential};
ghost use Rattle.gov_ids.specs.Orders.{credential_cmp};
ghost use Rattle.gov_model.specs.Proposals.{deposits_of};
ghost use Rattle.gov_model.specs.Snapshot.{Snapshot};
ghost use Rattle.maps.specs.Maps.{has_key};
ghost use Rattle.view_map.specs.View.{frozen_of};
ghost use Rattle.resumed_books.specs.Counts.{HasLists};

use accounts::AccountBook;
use book_records::DrepState;
use coin_frac::{NoMemory, Steps};
use drep_book::DrepBook;
use drep_pulser::{Counting, Pulser, begin};
use frozen_lists::deposits_by_account;
use gov_actions::Proposal;
use gov_ids::Credential;
use std::alloc::Global;
use std::marker::Brand;
use std::sync::ledger::{Blank, Ledger};

/// The count of the book's frozen entries after so many of them, for these DReps, with the deposits
/// of these proposals in lovelace, for so many workers. `NoMemory` may come at any time.
pub fn counted_of(
    alloc: Global,
    book: &AccountBook,
    dreps: &[(Credential, u64)],
    proposals: &[Proposal],
    counted: u64,
    workers: u32,
) -> Result<Pulser, NoMemory>
    requires some { 1 ≤ workers }
    requires few { workers ≤ 64 }
    requires room { held_by (frozen_of credential_cmp book.now) + deposits_of proposals.now < 2 ^ 64 }
    requires within { counted ≤ length (frozen_of credential_cmp book.now) }
    ensures done { IfOk result (λ pulser. done_by pulser ≡ counted) }
    ensures counts { (f : Snapshot) → HasLists f (frozen_of credential_cmp book.now) dreps.now proposals.now →
        IfOk result (IsPulserOf f) }
{
    let deposits = deposits_by_account(alloc, proposals)?;
    let dreps = frozen_dreps(alloc, dreps)?;
    let counting = begin(alloc, book, &dreps, &deposits, workers)?;
    Ok(after::<Brand>(Blank::new(1), counting, book, counted))
}

/// A book in which these DReps are registered, each with its expiry.
fn frozen_dreps(alloc: Global, dreps: &[(Credential, u64)]) -> Result<DrepBook, NoMemory>
    ensures { IfOk result (λ book. (c : Credential) →
        has_key credential_cmp book.dreps c ≡ has_key credential_cmp dreps.now c) }
{
    let mut book = DrepBook::new(alloc);
    for (credential, expiry) in dreps {
        let drep = DrepState {
            deposit: 0,
            expiry: *expiry,
        };
        book.put(*credential, drep)?;
    }
    Ok(book)
}

/// The count after so many entries. It takes no memory.
fn after<L: Ledger>(blank: Blank, counting: Counting, book: &AccountBook, counted: u64) -> Pulser
    requires name { blank.name ≡ L.name }
    requires parts { blank.parts ≡ L.parts }
    requires one { 0 < L.parts }
    requires none { counting.done ≡ 0 }
    requires within { counted ≤ counting.total }
    requires counts { IsCountIn (frozen_of credential_cmp book.now) counting }
    ensures done { done_by result ≡ counted }
    ensures counts { (f : Snapshot) → f.entries ≡ frozen_of credential_cmp book.now → IsCountOf f counting →
        IsPulserOf f result }
{
    let mut steps = Steps::<L>::open(blank);
    let mut counting = counting;
    while counting.done() < counted {
        let pulse = pulse_of(counted - counting.done());
        match counting.pulse(book, pulse, &mut steps) {
            Pulser::Counting(further) => counting = further,
            Pulser::Counted(all) => return Pulser::Counted(all),
        }
    }
    Pulser::Counting(counting)
}

/// The next pulse, where so many entries are to be visited.
fn pulse_of(left: u64) -> u32
    requires { 0 < left }
    ensures some { 1 ≤ result }
    ensures few { result ≤ left }
{
    u32::try_from(left).unwrap_or(u32::MAX)
}
