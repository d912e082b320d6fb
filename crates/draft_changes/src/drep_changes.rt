ghost use Rattle.std.specs.Prelude.{◌≡◌, ◌+◌, ◌<◌, ◌^◌, [], option_map, if◌then◌else◌, IfOk, OnOk, OnErr};
ghost use Rattle.std.specs.Map.{keys_of};
ghost use Rattle.std.specs.Option.{ForSome};
ghost use Rattle.gov_ids.specs.Orders.{credential_cmp};
ghost use Rattle.book_records.specs.Dormancy.{AllFit};
ghost use Rattle.draft_changes.specs.ChangedDreps.{AllAddable, awakened, laid_over, with_change, with_refresh};
ghost use Rattle.draft_changes.specs.Changed.{dormant_by, with_dreps};
ghost use Rattle.maps.specs.Maps.{IsMap, value_at};

use crate::changed_names::names_in;
use book_records::DrepState;
use coin_frac::NoMemory;
use gov_ids::Credential;
use ledger_books::of_drep_book::{DrepBook, with_dormant};
use std::alloc::Global;
use std::collections::BTreeMap;
use std::marker::Model;

/// The DReps that a draft changed, and whether it added the dormant epochs.
/// Reads of the book add these epochs, so that no scan of the DReps is needed.
#[derive(Drop)]
pub struct DrepChanges {
    entries: BTreeMap<Credential, Option<DrepState>>,
    refreshed: bool,
}

impl Model for DrepChanges {
    ghost use Rattle.gov_ids.specs.Orders.{credential_cmp};
    ghost use Rattle.maps.specs.Maps.{IsMap};
    ghost use Rattle.draft_changes.specs.ChangedDreps.{ChangedDreps};

    ghost Value = { ChangedDreps };

    ghost view = { λ a. record { dreps = a.entries.entries; refreshed = a.refreshed } };

    ghost invariant = { λ a. IsMap credential_cmp a.entries.entries };
}

/// A DRep with the dormant epochs added, if they are and unless it has expired with them.
fn awakened(refreshed: bool, drep: Option<DrepState>, epoch: u64, dormant: u64) -> Option<DrepState>
    ensures { ForSome drep (λ s. s.expiry + dormant < 2 ^ 64) →
        result ≡ (if refreshed then option_map (awakened epoch dormant) drep else drep) }
{
    if !refreshed {
        return drep;
    }
    Some(with_dormant(drep?, epoch, dormant))
}

impl DrepChanges {
    /// No DRep is changed; `refreshed` if no dormant epoch is left to add.
    pub fn new(alloc: Global, refreshed: bool) -> DrepChanges
        ensures { result ≡ record { dreps = []; refreshed = refreshed } }
    {
        DrepChanges {
            entries: BTreeMap::new(alloc),
            refreshed,
        }
    }

    /// The DRep of a credential in an epoch, over this book.
    pub fn latest(&self, c: &Credential, book: &DrepBook, epoch: u64) -> Option<DrepState>
        requires fit { ForSome (value_at credential_cmp book.now.dreps c.now)
            (λ s. s.expiry + book.now.dormant < 2 ^ 64) }
        ensures { result ≡ value_at credential_cmp (laid_over self.now epoch book.now).dreps c.now }
    {
        let before = awakened(self.refreshed, book.get(c), epoch, book.dormant());
        self.entries.get(c).copied().unwrap_or(before)
    }

    /// The DReps that changed, in order.
    pub fn changed(&self, alloc: Global) -> Result<Vec<Credential>, NoMemory>
        ensures names { IfOk result (λ names. names.items ≡ keys_of self.now.dreps) }
        ensures in_order { IsMap credential_cmp self.now.dreps }
    {
        names_in(alloc, &self.entries)
    }

    /// Whether the dormant epochs were added.
    pub fn is_refreshed(&self) -> bool
        ensures { result ≡ self.now.refreshed }
    {
        self.refreshed
    }

    /// The dormant epochs that remain, over this book.
    pub fn dormant(&self, book: &DrepBook) -> u64
        ensures { result ≡ dormant_by self.now.refreshed book.now.dormant }
    {
        if self.refreshed { 0 } else { book.dormant() }
    }

    /// Sets the DRep of a credential to `to`. `NoMemory`: nothing changed.
    pub fn set(&mut self, c: Credential, to: Option<DrepState>) -> Result<(), NoMemory>
        ensures ok { OnOk result (self.new ≡ with_change c to self.old) }
        ensures err { OnErr result (self.new ≡ self.old) }
    {
        self.entries.insert(c, to)?;
        Ok(())
    }

    /// Adds the book's dormant epochs, if they are not yet added, to the expiry of each DRep
    /// that with them has not expired by the epoch. It scans the changed DReps only.
    pub fn refresh(&mut self, book: &DrepBook, epoch: u64)
        requires fit { AllAddable (dormant_by self.old.refreshed book.now.dormant) self.old.dreps }
        ensures { self.new ≡ with_refresh epoch book.now.dormant self.old }
    {
        if self.refreshed {
            return;
        }
        let dormant = book.dormant();
        self.entries.retain(|_, to| {
            *to = awakened(true, *to, epoch, dormant);
            true
        });
        self.refreshed = true;
    }

    /// Lays these changes over the book, in an epoch. After `NoMemory` the caller drops the book.
    /// It scans the DReps of the book if dormant epochs were added, else the changed ones only.
    pub fn lay_over(self, book: &mut DrepBook, epoch: u64) -> Result<(), NoMemory>
        requires fit { AllFit book.old.dormant book.old.dreps }
        ensures { OnOk result (book.new ≡ laid_over self epoch book.old) }
    {
        if self.refreshed {
            book.refresh(epoch);
        }
        put_dreps(book, self.entries)
    }
}

/// Puts these DReps into the book, and removes those that left.
fn put_dreps(
    book: &mut DrepBook,
    changed: BTreeMap<Credential, Option<DrepState>>,
) -> Result<(), NoMemory>
    ensures { OnOk result (book.new ≡ record book.old { dreps = with_dreps changed.entries book.old.dreps }) }
{
    if changed.is_empty() {
        return Ok(());
    }
    for (c, to) in changed {
        book.restore(c, to)?;
    }
    Ok(())
}
