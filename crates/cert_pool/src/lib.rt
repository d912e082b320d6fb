//! The book of registered pools: their terms, and the boundary that turns terms and reaps pools.
#![tactic(auto)]

mod keys;

ghost use Rattle.std.specs.Prelude.{◌≡◌, [], ◌++◌, None, option_map, is_none, unwrap_or, OnOk, OnErr, IfOk};
ghost use Rattle.std.specs.Map.{keys_of};
ghost use Rattle.gov_ids.specs.Orders.{pool_cmp};
ghost use Rattle.maps.specs.Maps.{IsMap, value_at, with_value, with_values, without_key, entry_after};
ghost use Rattle.maps.specs.Replaced.{with_option};
ghost use Rattle.book_records.specs.Pools.{is_key_of, is_key_of_other, pool_after, with_registration, with_retirement, turned, retires_at, uses_key};
ghost use Rattle.cert_pool.specs.Keys.{AreCounted, count_in_option, count_of_others};
ghost use Rattle.cert_pool.specs.Reaping.{reaped_of, left_of};

pub use book_records::{Pool, PoolTerms};
use gov_ids::{Account, PoolId};
use keys::KeyCounts;
use maps::keys_past;
use no_memory::NoMemory;
use std::alloc::Global;
use std::collections::BTreeMap;
use std::marker::Model;

/// The registered pools in order of their ids. A count of pools is kept for each key.
/// So no question about a key looks at the pools.
/// (PState of the formal specification; that they are counted is own)
#[derive(Debug)]
pub struct PoolBook {
    alloc: Global,
    pools: BTreeMap<PoolId, Pool>,
    keys: KeyCounts,
}

// A derived drop would be proved again, part by part, in each crate above.
impl Drop for PoolBook {
    fn drop(self) {
        let PoolBook {
            alloc: _alloc,
            pools: _pools,
            keys: _keys,
        } = self;
    }
}

impl Model for PoolBook {
    ghost use Rattle.std.specs.Prelude.{List};
    ghost use Rattle.gov_ids.specs.declared.PoolId.{PoolId};
    ghost use Rattle.book_records.specs.declared.pool.Pool.{Pool};
    ghost use Rattle.cert_pool.specs.Keys.{IsIndexed};

    ghost Value = { List (PoolId × Pool) };

    ghost view = { λ a. a.pools.entries };

    ghost invariant = { λ a. IsIndexed a.pools.entries a.keys };
}

/// A pool that a boundary removed. (POOLREAP of the formal specification)
#[derive(Clone, Copy, Debug, PartialEq, Eq)]
pub struct Reaped {
    pub pool: PoolId,
    /// What its first registration paid, in lovelace.
    pub deposit: u64,
    /// The reward account of the terms in force, to which the deposit goes.
    pub account: Account,
}

impl PoolBook {
    /// A book with no pool. (PState of the formal specification)
    pub fn new(alloc: Global) -> PoolBook
        ensures { result ≡ [] }
    {
        PoolBook {
            alloc,
            pools: BTreeMap::new(alloc),
            keys: KeyCounts::new(alloc),
        }
    }

    /// The pool of an id, if it is registered. (PState of the formal specification)
    pub fn get(&self, p: &PoolId) -> Option<Pool>
        ensures value { result ≡ value_at pool_cmp self.now p.now }
        ensures in_order { IsMap pool_cmp self.now }
    {
        self.pools.get(p).copied()
    }

    /// Whether a pool other than `p` has this key, in its terms or its future terms.
    /// It looks at `p` alone, and at the count of the key.
    pub fn key_of_other(&self, key: &[u8; 32], p: &PoolId) -> bool
        ensures value { result ≡ is_key_of_other key.now p.now self.now }
        ensures in_order { IsMap pool_cmp self.now }
    {
        self.count_of_others(key, p) > 0
    }

    /// How many pools other than `p` have this key, in their terms or their future terms.
    /// It looks at `p` alone, and at the count of the key.
    pub fn count_of_others(&self, key: &[u8; 32], p: &PoolId) -> u64
        ensures count { result ≡ count_of_others key.now p.now self.now }
        ensures in_order { IsMap pool_cmp self.now }
    {
        self.keys.of(key) - count_in(self.get(p), key)
    }

    /// Sets the pool of an id, or removes it. `NoMemory` leaves the book unchanged.
    pub fn restore(&mut self, p: PoolId, to: Option<Pool>) -> Result<(), NoMemory>
        ensures ok { OnOk result (self.new ≡ with_option pool_cmp p to self.old) }
        ensures err { OnErr result (self.new ≡ self.old) }
    {
        match to {
            Some(pool) => self.put(p, pool),
            None => {
                self.forget(&p);
                Ok(())
            }
        }
    }

    /// Removes the pool of an id, if there is one. It takes no memory.
    pub fn forget(&mut self, p: &PoolId)
        ensures { self.new ≡ without_key pool_cmp p.now self.old }
    {
        let forgotten = self.pools.remove(p);
        self.keys.take(forgotten);
    }

    /// Registers a pool and returns whether it is the first registration; `deposit` is in lovelace.
    /// A registered pool gets future terms, no longer retires, and keeps its deposit.
    /// `NoMemory` leaves the book unchanged. (POOL of the formal specification)
    pub fn register(&mut self, p: PoolId, terms: PoolTerms, deposit: u64) -> Result<bool, NoMemory>
        ensures first { IfOk result (λ r. r ≡ is_none (value_at pool_cmp self.old p)) }
        ensures ok { OnOk result (self.new ≡ with_registration p terms deposit self.old) }
        ensures err { OnErr result (self.new ≡ self.old) }
    {
        let known = self.get(&p);
        let first = known.is_none();
        self.put(p, registered(known, terms, deposit))?;
        Ok(first)
    }

    /// Lets a pool retire: the named epoch begins without it. An unregistered id changes nothing.
    /// (POOL of the formal specification)
    pub fn retire(&mut self, p: &PoolId, epoch: u64)
        ensures { self.new ≡ with_retirement p.now epoch self.old }
    {
        if let Some(pool) = self.pools.get_mut(p) {
            pool.retires = Some(epoch);
        }
    }

    /// Puts future terms in force, then removes the pools that retire with the epoch.
    /// Returns these in order of their ids. `NoMemory` leaves the book unchanged.
    /// (POOLREAP of the formal specification)
    pub fn reap(&mut self, epoch: u64) -> Result<Vec<Reaped>, NoMemory>
        ensures reaped { IfOk result (λ r. r.items ≡ reaped_of epoch self.old) }
        ensures left { OnOk result (self.new ≡ left_of epoch self.old) }
        ensures err { OnErr result (self.new ≡ self.old) }
    {
        let reaped = self.reaped(epoch)?;
        let keys = self.keys_left(epoch)?;
        self.pools.retain(|_, pool| {
            *pool = turned(*pool);
            !retires_at(pool, epoch)
        });
        self.keys = keys;
        Ok(reaped)
    }

    /// Sets each pool of the other book, which replaces what its id had.
    pub fn with_all(self, changed: PoolBook) -> Result<PoolBook, NoMemory>
        ensures { IfOk result (λ after. after ≡ with_values pool_cmp changed self) }
    {
        let mut book = self;
        let PoolBook {
            alloc: _alloc,
            pools,
            keys: _keys,
        } = changed;
        for (p, pool) in pools {
            book.put(p, pool)?;
        }
        Ok(book)
    }

    /// The next pool in order of ids after this one, or the first of all.
    /// (PState of the formal specification)
    pub fn next(&self, after: Option<&PoolId>) -> Option<(PoolId, Pool)>
        ensures value { result ≡ entry_after pool_cmp (option_map (λ p. p.now) after.entry) self.now }
        ensures in_order { IsMap pool_cmp self.now }
    {
        let (p, pool) = self.pools.range(keys_past(after)).next()?;
        Some((*p, *pool))
    }

    /// The ids of the pools, in order. (PState of the formal specification)
    pub fn ids(&self, alloc: Global) -> Result<Vec<PoolId>, NoMemory>
        ensures value { IfOk result (λ l. l.items ≡ keys_of self.now) }
        ensures in_order { IsMap pool_cmp self.now }
    {
        Ok(self.pools.keys().copied().collect(alloc)?)
    }

    // Sets the pool of an id.
    fn put(&mut self, p: PoolId, pool: Pool) -> Result<(), NoMemory>
        ensures ok { OnOk result (self.new ≡ with_value pool_cmp p pool self.old) }
        ensures err { OnErr result (self.new ≡ self.old) }
    {
        self.keys.add(&pool)?;
        let Ok(before) = self.pools.insert(p, pool) else {
            self.keys.take(Some(pool));
            return Err(NoMemory);
        };
        self.keys.take(before);
        Ok(())
    }

    // The pools that retire with the epoch, by the terms that take effect then.
    fn reaped(&self, epoch: u64) -> Result<Vec<Reaped>, NoMemory>
        ensures { IfOk result (λ r. r.items ≡ reaped_of epoch self.now) }
    {
        let mut reaped = Vec::new(self.alloc);
        for (p, pool) in &self.pools {
            if retires_at(pool, epoch) {
                reaped.push(Reaped {
                    pool: *p,
                    deposit: pool.deposit,
                    account: turned(*pool).terms.account,
                })?;
            }
        }
        Ok(reaped)
    }

    // The counts of keys of the pools that stay at the epoch, by the terms then in force.
    fn keys_left(&self, epoch: u64) -> Result<KeyCounts, NoMemory>
        ensures { IfOk result (λ counts. AreCounted (left_of epoch self.now) counts) }
    {
        let mut counts = KeyCounts::new(self.alloc);
        for pool in self.pools.values() {
            if !retires_at(pool, epoch) {
                counts.add(&turned(*pool))?;
            }
        }
        Ok(counts)
    }
}

/// The pool after a registration; the deposit is in lovelace. A new pool has these terms.
/// A known pool gets them as future terms, no longer retires, and keeps its deposit.
/// (POOL of the formal specification)
pub fn registered(known: Option<Pool>, terms: PoolTerms, deposit: u64) -> Pool
    ensures { result ≡ pool_after deposit terms known }
{
    match known {
        Some(pool) => Pool {
            future: Some(terms),
            retires: None,
            ..pool
        },
        None => Pool {
            deposit,
            terms,
            future: None,
            retires: None,
        },
    }
}

// One if there is a pool that has the key, in its terms or its future terms; otherwise none.
fn count_in(pool: Option<Pool>, key: &[u8; 32]) -> u64
    ensures { result ≡ count_in_option key.now pool }
{
    match pool {
        Some(p) => u64::from(uses_key(&p, key)),
        None => 0,
    }
}

// Whether the pool has the key, in its terms or its future terms.
fn uses_key(pool: &Pool, key: &[u8; 32]) -> bool
    ensures { result ≡ uses_key key.now pool.now }
{
    has_key(&pool.terms, key) || pool.future.is_some_and(|terms| has_key(&terms, key))
}

// Whether the terms have the key.
fn has_key(terms: &PoolTerms, key: &[u8; 32]) -> bool
    ensures { result ≡ is_key_of key.now terms.now }
{
    match &terms.key {
        Some(stated) => stated.cmp(key).is_eq(),
        None => false,
    }
}

// The pool with its future terms in force, if it has some.
fn turned(pool: Pool) -> Pool
    ensures { result ≡ turned pool }
{
    Pool {
        terms: pool.future.unwrap_or(pool.terms),
        future: None,
        ..pool
    }
}

// Whether the pool retires with the epoch.
fn retires_at(pool: &Pool, epoch: u64) -> bool
    ensures { result ≡ retires_at epoch pool.now }
{
    pool.retires == Some(epoch)
}
