ghost use Rattle.std.specs.Prelude.{◌≡◌, ◌+◌, ◌≤◌, [], Some, OnOk, OnErr};
ghost use Rattle.std.specs.List.{list_any};
ghost use Rattle.maps.specs.Maps.{has_key};
ghost use Rattle.stake_book.specs.Sums.{IsRaised, amount_at, amount_for};

use crate::amounts::{lower, raise};
use coin_frac::NoMemory;
use std::alloc::Global;
use std::collections::{BTreeMap, BTreeSet};
use std::marker::Model;

/// How many accounts delegate to each pool, or to each DRep; a key with a count of 0 has no entry.
/// Contracts see the counts.
#[derive(Drop)]
pub struct Delegators<K: Ord> {
    counts: BTreeMap<K, u64>,
    // how many delegations were ever counted; the counts together are at most that
    counted: u64,
}

impl<K: Ord> Model for Delegators<K> {
    ghost use Rattle.std.specs.Prelude.{◌≤◌, ℕ, List};
    ghost use Rattle.coin_frac.specs.Totals.{total_of};

    ghost Value = { List (K × ℕ) };

    ghost view = { λ a. a.counts.entries };

    ghost invariant = { λ a. total_of a.counts.entries ≤ a.counted };
}

impl<K: Copy + Ord> Delegators<K> {
    /// No delegations.
    pub fn new(alloc: Global) -> Delegators<K>
        ensures { result ≡ [] }
    {
        Delegators {
            counts: BTreeMap::new(alloc),
            counted: 0,
        }
    }

    /// Counts one more delegation, if there is one. `NoMemory` changes nothing.
    pub fn join(&mut self, to: Option<K>) -> Result<(), NoMemory>
        ensures ok { OnOk result (IsRaised K.cmp to 1 self.old self.new) }
        ensures err { OnErr result (self.new ≡ self.old) }
    {
        let counted = self.counted.checked_add(1).ok_or(NoMemory)?;
        raise(&mut self.counts, to, 1)?;
        self.counted = counted;
        Ok(())
    }

    /// Counts one delegation less, if there is one. It takes no memory.
    pub fn leave(&mut self, from: Option<K>)
        requires { (k : K) → from ≡ Some k → 1 ≤ amount_at K.cmp self.old k }
        ensures { IsRaised K.cmp from 1 self.new self.old }
    {
        lower(&mut self.counts, from, 1);
    }

    /// Whether an account delegates to one of these.
    pub fn have_any(&self, names: &BTreeSet<K>) -> bool
        ensures { result ≡ list_any (has_key K.cmp self.now) names.now.keys }
    {
        names.iter().any(|name| self.counts.contains_key(name))
    }
}

/// The delegation that ends and the one that begins; none for both where it stays.
pub fn moved<K: Copy + Ord>(from: Option<K>, to: Option<K>) -> (Option<K>, Option<K>)
    ensures each { (k : K) → amount_for K.cmp 1 result.1 k + amount_for K.cmp 1 from k ≡
        amount_for K.cmp 1 result.0 k + amount_for K.cmp 1 to k }
    ensures from { (k : K) → result.0 ≡ Some k → from ≡ Some k }
{
    match (&from, &to) {
        (Some(a), Some(b)) if a.cmp(b).is_eq() => (None, None),
        _ => (from, to),
    }
}
