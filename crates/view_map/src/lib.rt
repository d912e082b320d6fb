//! A map with its list at the last freeze, by marks in its entries.
#![tactic(auto)]

ghost use Rattle.std.specs.Prelude.{◌≡◌, true, [], MatchOption, OnOk, OnErr, IfOk, is_some, length, option_map, unwrap_or, if◌then◌else◌};
ghost use Rattle.std.specs.BTreeMap.{is_at};
ghost use Rattle.std.specs.Map.{set_value};
ghost use Rattle.std.specs.Option.{option_and_then};
ghost use Rattle.maps.specs.Maps.{IsMap, value_at, has_key, with_value, without_key, entry_after};
ghost use Rattle.maps.specs.Replaced.{with_option};
ghost use Rattle.view_map.specs.Marks.{AllBefore, AllMarked, kept_with, unchanged_in, unchanged_value, values_in};
ghost use Rattle.view_map.specs.View.{IsInOrder, NotedAreFrozen, entry_at, frozen_of, key_in};
ghost use Rattle.view_map.specs.Walk.{entries_past};

mod change;
mod frozen_iter;
mod live_iter;
mod peeked;
mod unchanged;

pub use change::Follower;
use change::change_in;
pub use frozen_iter::FrozenIter;
pub use live_iter::LiveIter;
use maps::keys_past;
use no_memory::NoMemory;
use std::alloc::Global;
use std::collections::BTreeMap;
use std::collections::btree_map::Entry;
use std::marker::Model;

/// A live list, and a frozen list that no change of the live one alters.
/// Contracts see both as lists in the order of keys.
#[derive(Drop)]
pub struct ViewMap<K: Ord, V> {
    // The live entries, each value with the number of freezes at its last change.
    live: BTreeMap<K, (V, u64)>,
    // The frozen entries whose keys changed or left since the last freeze.
    kept: BTreeMap<K, V>,
    // The number of freezes.
    mark: u64,
    frozen_len: u64,
}

impl<K: Ord, V> Model for ViewMap<K, V> {
    ghost use Rattle.view_map.specs.Marks.{IsMarked, view_of};
    ghost use Rattle.view_map.specs.View.{View};

    ghost Value = { View K V };

    ghost view = { λ a. view_of K.cmp (record {
      live = a.live.entries;
      kept = a.kept.entries;
      mark = a.mark;
      frozen_len = a.frozen_len;
    }) };

    ghost invariant = { λ a. IsMarked K.cmp (record {
      live = a.live.entries;
      kept = a.kept.entries;
      mark = a.mark;
      frozen_len = a.frozen_len;
    }) };
}

// Inserts or replaces a value, in one search. Returns the key in the list and the old value.
fn replace<K: Copy + Ord, V: Copy>(
    live: &mut BTreeMap<K, V>,
    k: K,
    v: V,
) -> Result<(K, Option<V>), NoMemory>
    ensures live { OnOk result (live.new.entries ≡ with_value K.cmp k v live.old.entries) }
    ensures key { IfOk result (λ r. r.0 ≡ key_in K.cmp live.old.entries k) }
    ensures before { IfOk result (λ r. r.1 ≡ value_at K.cmp live.old.entries k) }
    ensures err { OnErr result (live.new.entries ≡ live.old.entries) }
{
    match live.entry(k)? {
        Entry::Occupied(entry) => {
            let key = *entry.key();
            let value = entry.into_mut();
            let before = *value;
            *value = v;
            Ok((key, Some(before)))
        }
        Entry::Vacant(entry) => {
            entry.insert(v);
            Ok((k, None))
        }
    }
}

// Restores the old value of a key that has one now. It takes no memory.
fn put_back<K: Copy + Ord, V: Copy>(live: &mut BTreeMap<K, V>, k: &K, before: Option<V>)
    requires present { has_key K.cmp live.old.entries k.now ≡ true }
    ensures { MatchOption before (live.new.entries ≡ without_key K.cmp k.now live.old.entries)
        (λ v. live.new.entries ≡ set_value (is_at (K.cmp k.now)) live.old.entries v) }
{
    let Some(v) = before else {
        live.remove(k);
        return;
    };
    if let Some(value) = live.get_mut(k) {
        *value = v;
    }
}

// Keeps the entry that a key had at the freeze, if it has not changed since.
fn keep<K: Copy + Ord, V: Copy>(
    kept: &mut BTreeMap<K, V>,
    mark: u64,
    k: K,
    before: Option<(V, u64)>,
) -> Result<(), NoMemory>
    ensures ok { OnOk result (kept.new.entries ≡
        kept_with K.cmp k (option_and_then (unchanged_value mark) before) kept.old.entries) }
    ensures err { OnErr result (kept.new.entries ≡ kept.old.entries) }
{
    let Some((value, since)) = before else {
        return Ok(());
    };
    if since != mark {
        kept.insert(k, value)?;
    }
    Ok(())
}

// Sets the kept entry of a key.
fn set_kept<K: Copy + Ord, V: Copy>(
    kept: &mut BTreeMap<K, V>,
    k: K,
    first: Option<V>,
) -> Result<(), NoMemory>
    ensures ok { OnOk result (kept.new.entries ≡ with_option K.cmp k first kept.old.entries) }
    ensures err { OnErr result (kept.new.entries ≡ kept.old.entries) }
{
    match first {
        Some(v) => {
            kept.insert(k, v)?;
        }
        None => {
            kept.remove(&k);
        }
    }
    Ok(())
}

// Marks the entry at a key as changed; its value stays.
fn mark_changed<K: Copy + Ord, V: Copy>(live: &mut BTreeMap<K, (V, u64)>, mark: u64, k: &K)
    requires in_order { IsMap K.cmp live.old.entries }
    requires marks { AllMarked mark live.old.entries }
    ensures in_order { IsMap K.cmp live.new.entries }
    ensures marks { AllMarked mark live.new.entries }
    ensures values { values_in live.new.entries ≡ values_in live.old.entries }
    ensures unchanged { unchanged_in mark live.new.entries ≡
        without_key K.cmp k.now (unchanged_in mark live.old.entries) }
{
    let Some((v, _)) = live.get(k) else {
        return;
    };
    let value = *v;
    put_back(live, k, Some((value, mark)));
}

// Sets each mark to 0.
fn clear_marks<K: Copy + Ord, V: Copy>(live: &mut BTreeMap<K, (V, u64)>)
    ensures marks { AllBefore 1 live.new.entries }
    ensures values { values_in live.new.entries ≡ values_in live.old.entries }
{
    live.retain(|_, entry| {
        *entry = (entry.0, 0);
        true
    });
}

// The number of the next freeze. After the greatest number all marks become 0, and it is 1.
fn next_mark<K: Copy + Ord, V: Copy>(live: &mut BTreeMap<K, (V, u64)>, mark: u64) -> u64
    requires { AllMarked mark live.old.entries }
    ensures marks { AllBefore result live.new.entries }
    ensures values { values_in live.new.entries ≡ values_in live.old.entries }
{
    match mark.checked_add(1) {
        Some(next) => next,
        None => {
            clear_marks(live);
            1
        }
    }
}

// The entry at a key that has not changed since the freeze.
fn unchanged_at<K: Copy + Ord, V: Copy>(
    live: &BTreeMap<K, (V, u64)>,
    mark: u64,
    k: &K,
) -> Option<(K, V)>
    requires { IsMap K.cmp live.now.entries }
    ensures { result ≡ entry_at K.cmp (unchanged_in mark live.now.entries) k.now }
{
    let (key, (v, since)) = live.get_key_value(k)?;
    if *since == mark {
        None
    } else {
        Some((*key, *v))
    }
}

// The kept entry at a key.
fn kept_at<K: Copy + Ord, V: Copy>(kept: &BTreeMap<K, V>, k: &K) -> Option<(K, V)>
    ensures { result ≡ entry_at K.cmp kept.now.entries k.now }
{
    let (key, v) = kept.get_key_value(k)?;
    Some((*key, *v))
}

// The key of the entry; without one, `k`.
fn key_or<K: Copy, V: Copy>(entry: Option<(K, V)>, k: K) -> K
    ensures { result ≡ unwrap_or (option_map (λ e. e.0) entry) k }
{
    match entry {
        Some((key, _)) => key,
        None => k,
    }
}

// The number of entries: one or none.
fn count<T>(entry: &Option<T>) -> u64
    ensures { result ≡ (if is_some entry.now then 1 else 0) }
{
    if entry.is_some() { 1 } else { 0 }
}

impl<K: Copy + Ord, V: Copy> ViewMap<K, V> {
    /// A map with empty lists.
    pub fn new(alloc: Global) -> ViewMap<K, V>
        ensures { result ≡ record { live = []; frozen = [] } }
    {
        ViewMap {
            live: BTreeMap::new(alloc),
            kept: BTreeMap::new(alloc),
            mark: 0,
            frozen_len: 0,
        }
    }

    /// The live value at a key, none without an entry.
    pub fn get(&self, k: &K) -> Option<V>
        ensures value { result ≡ value_at K.cmp self.now.live k.now }
        ensures in_order { IsInOrder K.cmp self.now }
    {
        match self.live.get(k) {
            Some((v, _)) => Some(*v),
            None => None,
        }
    }

    // The frozen entry at a key, with the key of the list.
    fn frozen_entry(&self, k: &K) -> Option<(K, V)>
        ensures { result ≡ entry_at K.cmp self.now.frozen k.now }
    {
        match kept_at(&self.kept, k) {
            Some(entry) => Some(entry),
            None => unchanged_at(&self.live, self.mark, k),
        }
    }

    /// The value at a key at the last freeze, none without an entry.
    pub fn frozen_get(&self, k: &K) -> Option<V>
        ensures { result ≡ value_at K.cmp (frozen_of K.cmp self.now) k.now }
    {
        let (_, v) = self.frozen_entry(k)?;
        Some(v)
    }

    /// Inserts or replaces the live value at a key. `NoMemory` leaves the map unchanged.
    pub fn put(&mut self, k: K, v: V) -> Result<(), NoMemory>
        ensures ok { OnOk result (self.new ≡ record self.old { live = with_value K.cmp k v self.old.live }) }
        ensures err { OnErr result (self.new ≡ self.old) }
    {
        let (key, before) = replace(&mut self.live, k, (v, self.mark))?;
        if let Err(error) = keep(&mut self.kept, self.mark, key, before) {
            put_back(&mut self.live, &k, before);
            return Err(error);
        }
        Ok(())
    }

    /// Removes the live entry at a key and returns its value; without an entry, no change.
    /// `NoMemory` leaves the map unchanged.
    pub fn remove(&mut self, k: &K) -> Result<Option<V>, NoMemory>
        ensures value { IfOk result (λ v. v ≡ value_at K.cmp self.old.live k.now) }
        ensures ok { OnOk result (self.new ≡ record self.old { live = without_key K.cmp k.now self.old.live }) }
        ensures err { OnErr result (self.new ≡ self.old) }
    {
        let Some((key, entry)) = self.live.get_key_value(k) else {
            return Ok(None);
        };
        let before = *entry;
        keep(&mut self.kept, self.mark, *key, Some(before))?;
        self.live.remove(k);
        Ok(Some(before.0))
    }

    /// Changes the live value at a key, in one search, and returns the value before.
    /// Until the follower has returned, a new entry holds `blank`.
    /// `NoMemory` leaves the map unchanged, and the follower has followed no change.
    pub fn change<C, S: Follower<V, C>>(
        &mut self,
        k: K,
        blank: V,
        by: &C,
        follower: &mut S,
    ) -> Result<Option<V>, NoMemory>
        requires { S.can_follow follower.old by.now (value_at K.cmp self.old.live k) }
        ensures value { IfOk result (λ v. v ≡ value_at K.cmp self.old.live k) }
        ensures ok { OnOk result (self.new ≡ record self.old {
          live = with_option K.cmp k (S.value_after by.now (value_at K.cmp self.old.live k)) self.old.live;
        }) }
        ensures follower { OnOk result (S.has_followed follower.old (value_at K.cmp self.old.live k)
            (S.value_after by.now (value_at K.cmp self.old.live k)) follower.new) }
        ensures err { OnErr result (self.new ≡ self.old) }
        ensures follower_err { OnErr result (S.has_followed follower.old (value_at K.cmp self.old.live k)
            (value_at K.cmp self.old.live k) follower.new) }
    {
        let before = change_in(
            &mut self.live,
            &mut self.kept,
            self.mark,
            k,
            blank,
            by,
            follower,
        )?;
        Ok(before)
    }

    /// Sets the frozen value at a key; none removes it. The live entry stays.
    /// `NoMemory` leaves the map unchanged.
    pub fn note_first(&mut self, k: K, first: Option<V>) -> Result<(), NoMemory>
        ensures ok { OnOk result (self.new ≡ record self.old { frozen = with_option K.cmp k first self.old.frozen }) }
        ensures err { OnErr result (self.new ≡ self.old) }
    {
        let frozen = self.frozen_entry(&k);
        let others = self.frozen_len - count(&frozen);
        let Some(len) = others.checked_add(count(&first)) else {
            return Err(NoMemory);
        };
        let key = key_or(frozen, k);
        set_kept(&mut self.kept, key, first)?;
        mark_changed(&mut self.live, self.mark, &k);
        self.frozen_len = len;
        Ok(())
    }

    /// Makes the live list the frozen one. It takes no memory.
    /// It visits only the kept entries, except once in 2^64 freezes.
    pub fn freeze(&mut self)
        ensures { self.new ≡ record self.old { frozen = self.old.live } }
    {
        self.mark = next_mark(&mut self.live, self.mark);
        self.kept.clear();
        self.frozen_len = self.live.len() as u64;
    }

    /// The live entries in the order of keys, in one pass. It takes no memory.
    pub fn iter(&self) -> LiveIter<'_, K, V>
        ensures { result ≡ self.now.live }
    {
        LiveIter::new(self.live.iter())
    }

    /// The first live entry after a key, or the first of all; none at the end.
    pub fn next(&self, after: Option<&K>) -> Option<(K, V)>
        ensures { result ≡ entry_after K.cmp (option_map (λ k. k.now) after.entry) self.now.live }
    {
        let (k, (v, _)) = self.live.range(keys_past(after)).next()?;
        Some((*k, *v))
    }

    /// The frozen entries after a key, or all of them, in the order of keys.
    /// It searches once, then goes on step by step. It takes no memory.
    pub fn frozen_past(&self, after: Option<&K>) -> FrozenIter<'_, K, V>
        ensures { result ≡ entries_past K.cmp (option_map (λ k. k.now) after.entry) (frozen_of K.cmp self.now) }
    {
        let live = self.live.range(keys_past(after));
        let kept = self.kept.range(keys_past(after));
        FrozenIter::new(self.mark, live, kept)
    }

    /// The first frozen entry after a key, or the first of all; none at the end.
    pub fn frozen_next(&self, after: Option<&K>) -> Option<(K, V)>
        ensures { result ≡ entry_after K.cmp (option_map (λ k. k.now) after.entry) (frozen_of K.cmp self.now) }
    {
        self.frozen_past(after).next()
    }

    /// The length of the frozen list.
    pub fn frozen_len(&self) -> u64
        ensures len { result ≡ length (frozen_of K.cmp self.now) }
        ensures in_order { IsMap K.cmp (frozen_of K.cmp self.now) }
    {
        self.frozen_len
    }
}

/// Does nothing. Its clause is a law, for keys that are equal if they compare as equal.
/// A live map with each difference to another map noted is the other map.
/// So after a freeze and a note of each difference the frozen list is the other map.
pub fn noted_are_frozen<K: Ord, V>()
    ensures { NotedAreFrozen V K.cmp }
{}
