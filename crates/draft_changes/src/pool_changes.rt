ghost use Rattle.std.specs.Prelude.{◌≡◌, IfOk, OnOk, OnErr};
ghost use Rattle.std.specs.Map.{keys_of};
ghost use Rattle.gov_ids.specs.Orders.{pool_cmp};
ghost use Rattle.book_records.specs.Pools.{is_key_of_other};
ghost use Rattle.draft_changes.specs.ChangedPools.{IsOver, none_changed};
ghost use Rattle.maps.specs.Maps.{IsMap, value_at, with_value, with_values};

use book_records::Pool;
use cert_pool::PoolBook;
use coin_frac::NoMemory;
use gov_ids::PoolId;
use std::alloc::Global;
use std::marker::Model;
use std::mem;

/// The pools that a draft changed, and those of the book before that they cover.
/// Counts of both tell whether a pool has a key, without a scan of the pools.
#[derive(Drop)]
pub struct PoolChanges {
    entries: PoolBook,
    covered: PoolBook,
    // whether a pool was ever put: an unchanged book is not scanned
    changed: bool,
}

impl Model for PoolChanges {
    ghost use Rattle.std.specs.Prelude.{◌≡◌, false, []};
    ghost use Rattle.draft_changes.specs.ChangedPools.{ChangedPools};

    ghost Value = { ChangedPools };

    ghost view = { λ a. record { entries = a.entries; covered = a.covered } };

    ghost invariant = { λ a. a.changed ≡ false → a.entries ≡ [] };
}

impl PoolChanges {
    /// No change.
    pub fn new(alloc: Global) -> PoolChanges
        ensures { result ≡ none_changed }
    {
        PoolChanges {
            entries: PoolBook::new(alloc),
            covered: PoolBook::new(alloc),
            changed: false,
        }
    }

    /// The pool of an id, over this book.
    pub fn latest(&self, p: &PoolId, book: &PoolBook) -> Option<Pool>
        ensures value { result ≡
            value_at pool_cmp (with_values pool_cmp self.now.entries book.now) p.now }
        ensures in_order { IsMap pool_cmp (with_values pool_cmp self.now.entries book.now) }
    {
        let before = book.get(p);
        match self.entries.get(p) {
            Some(pool) => Some(pool),
            None => before,
        }
    }

    /// Whether a pool other than `p` has this key, over this book:
    /// a changed one has it, or more of the book have it than are covered.
    pub fn key_of_other(&self, key: &[u8; 32], p: &PoolId, book: &PoolBook) -> bool
        requires over { IsOver book.now self.now }
        ensures { result ≡ is_key_of_other key.now p.now (with_values pool_cmp self.now.entries book.now) }
    {
        let covered = self.covered.count_of_others(key, p);
        let before = book.count_of_others(key, p);
        self.entries.key_of_other(key, p) || covered < before
    }

    /// The pools that changed, in order.
    pub fn changed(&self, alloc: Global) -> Result<Vec<PoolId>, NoMemory>
        ensures names { IfOk result (λ names. names.items ≡ keys_of self.now.entries) }
        ensures in_order { IsMap pool_cmp self.now.entries }
    {
        self.entries.ids(alloc)
    }

    /// Replaces the pool of the id, over this book. `NoMemory`: nothing changed.
    pub fn set(&mut self, p: PoolId, pool: Pool, book: &PoolBook) -> Result<(), NoMemory>
        requires over { IsOver book.now self.old }
        ensures ok { OnOk result (self.new.entries ≡ with_value pool_cmp p pool self.old.entries) }
        ensures in_order { IsMap pool_cmp self.old.entries }
        ensures over { IsOver book.now self.new }
        ensures err { OnErr result (self.new ≡ self.old) }
    {
        self.changed = true;
        if self.entries.get(&p).is_some() {
            return self.entries.restore(p, Some(pool));
        }
        self.covered.restore(p, book.get(&p))?;
        let put = self.entries.restore(p, Some(pool));
        if put.is_err() {
            self.covered.forget(&p);
        }
        put
    }

    /// Lays these pools over the book. After `NoMemory` the caller drops the book.
    pub fn lay_over(self, alloc: Global, book: &mut PoolBook) -> Result<(), NoMemory>
        ensures { OnOk result (book.new ≡ with_values pool_cmp self.entries book.old) }
    {
        if !self.changed {
            return Ok(());
        }
        let before = mem::replace(book, PoolBook::new(alloc));
        *book = before.with_all(self.entries)?;
        Ok(())
    }
}
