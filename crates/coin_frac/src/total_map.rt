ghost use Rattle.std.specs.Prelude.{◌≡◌, ◌^◌, ◌<◌, true, [], IfOk, OnOk, OnErr, unwrap_or};
ghost use Rattle.maps.specs.Maps.{IsMap, value_at, has_key, with_value, without_key};
ghost use Rattle.coin_frac.specs.Totals.{total_of};

use super::NoMemory;
use std::alloc::Global;
use std::collections::BTreeMap;
use std::marker::Model;

/// Amounts by key, with a running total.
/// Contracts see the list of its entries in the order of keys.
#[derive(Debug, Drop)]
pub struct TotalMap<K: Ord> {
    amounts: BTreeMap<K, u64>,
    total: u64,
}

impl<K: Ord> Model for TotalMap<K> {
    ghost use Rattle.std.specs.Prelude.{◌≡◌, ℕ, List};
    ghost use Rattle.maps.specs.Maps.{IsMap};
    ghost use Rattle.coin_frac.specs.Totals.{total_of};

    ghost Value = { List (K × ℕ) };

    ghost view = { λ a. a.amounts.entries };

    ghost invariant = { λ a. (a.total ≡ total_of a.amounts.entries) × IsMap K.cmp a.amounts.entries };
}

impl<K: Copy + Ord> TotalMap<K> {
    /// A map with no entries.
    pub fn new(alloc: Global) -> TotalMap<K>
        ensures { result ≡ [] }
    {
        TotalMap {
            amounts: BTreeMap::new(alloc),
            total: 0,
        }
    }

    /// A copy of the map.
    pub fn copied(&self, alloc: Global) -> Result<TotalMap<K>, NoMemory>
        ensures { IfOk result (λ copy. copy ≡ self.now) }
    {
        let mut amounts = BTreeMap::new(alloc);
        for (k, v) in &self.amounts {
            amounts.insert(*k, *v)?;
        }
        Ok(TotalMap {
            amounts,
            total: self.total,
        })
    }

    /// The amount at a key, 0 without an entry.
    pub fn get(&self, k: &K) -> u64
        ensures value { result ≡ unwrap_or (value_at K.cmp self.now k.now) 0 }
        ensures in_order { IsMap K.cmp self.now }
    {
        self.amounts.get(k).copied().unwrap_or(0)
    }

    /// Inserts an amount at a key, or replaces it; an entry may hold 0.
    /// `NoMemory` leaves the map unchanged.
    pub fn put(&mut self, k: K, v: u64) -> Result<(), NoMemory>
        requires fits { total_of (with_value K.cmp k v self.old) < 2 ^ 64 }
        ensures ok { OnOk result (self.new ≡ with_value K.cmp k v self.old) }
        ensures err { OnErr result (self.new ≡ self.old) }
    {
        let before = self.amounts.insert(k, v)?.unwrap_or(0);
        self.total = self.total - before + v;
        Ok(())
    }

    /// Replaces the amount of a key that has an entry. It takes no memory.
    pub fn set(&mut self, k: &K, v: u64)
        requires present { has_key K.cmp self.old k.now ≡ true }
        requires fits { total_of (with_value K.cmp k.now v self.old) < 2 ^ 64 }
        ensures { self.new ≡ with_value K.cmp k.now v self.old }
    {
        if let Some(amount) = self.amounts.get_mut(k) {
            self.total -= *amount;
            self.total += v;
            *amount = v;
        }
    }

    /// Removes the entry at a key and returns its amount, 0 without an entry.
    pub fn take(&mut self, k: &K) -> u64
        ensures value { result ≡ unwrap_or (value_at K.cmp self.old k.now) 0 }
        ensures rest { self.new ≡ without_key K.cmp k.now self.old }
    {
        let taken = self.amounts.remove(k).unwrap_or(0);
        self.total -= taken;
        taken
    }

    /// The sum of the amounts.
    pub fn total(&self) -> u64
        ensures sum { result ≡ total_of self.now }
        ensures in_order { IsMap K.cmp self.now }
    {
        self.total
    }
}
