ghost use Rattle.std.specs.Prelude.{◌≡◌, ◌+◌, ◌-◌, ℕ, List, [], Some, OnOk, OnErr};
ghost use Rattle.cert_pool.specs.Keys.{another, count_at, count_in, count_in_key, count_in_option};

use book_records::Pool;
use no_memory::NoMemory;
use std::alloc::Global;
use std::collections::BTreeMap;
use std::marker::Model;

// How many pools have each key, in their terms or their future terms. A count of 0 has no entry.
#[derive(Debug, Drop)]
pub(crate) struct KeyCounts {
    counts: BTreeMap<[u8; 32], u64>,
}

impl Model for KeyCounts {
    ghost use Rattle.std.specs.Prelude.{ℕ, List};
    ghost use Rattle.cert_pool.specs.Keys.{key_cmp};
    ghost use Rattle.maps.specs.Maps.{IsMap};

    ghost Value = { List (List ℕ × ℕ) };

    ghost view = { λ a. a.counts.entries };

    ghost invariant = { λ a. IsMap key_cmp a.counts.entries };
}

impl KeyCounts {
    /// No pool has any.
    pub fn new(alloc: Global) -> KeyCounts
        ensures { result ≡ [] }
    {
        KeyCounts {
            counts: BTreeMap::new(alloc),
        }
    }

    /// How many pools have this key.
    pub fn of(&self, key: &[u8; 32]) -> u64
        ensures { result ≡ count_at self.now key.now }
    {
        self.counts.get(key).copied().unwrap_or(0)
    }

    /// Counts the pool's keys once more. `NoMemory` changes no count.
    /// A count above 64 bits, too, is `NoMemory`: no memory holds so many pools.
    pub fn add(&mut self, pool: &Pool) -> Result<(), NoMemory>
        ensures ok { OnOk result ((key : List ℕ) → count_at self.new key ≡ count_at self.old key + count_in key pool.now) }
        ensures err { OnErr result ((key : List ℕ) → count_at self.new key ≡ count_at self.old key) }
    {
        let (now, next) = keys_of(pool);
        self.raise(now)?;
        let Ok(()) = self.raise(next) else {
            self.lower(now);
            return Err(NoMemory);
        };
        Ok(())
    }

    /// Counts the keys of the pool, if there is one, once less. It takes no memory.
    pub fn take(&mut self, pool: Option<Pool>)
        ensures { (key : List ℕ) → count_at self.new key ≡ count_at self.old key - count_in_option key pool }
    {
        if let Some(pool) = pool {
            let (now, next) = keys_of(&pool);
            self.lower(now);
            self.lower(next);
        }
    }

    // Counts the key, if there is one, once more. `NoMemory` changes nothing.
    fn raise(&mut self, key: Option<[u8; 32]>) -> Result<(), NoMemory>
        ensures ok { OnOk result ((k : List ℕ) → count_at self.new k ≡ count_at self.old k + count_in_key k key) }
        ensures err { OnErr result (self.new ≡ self.old) }
    {
        if let Some(key) = key {
            let count = self.of(&key).checked_add(1).ok_or(NoMemory)?;
            self.counts.insert(key, count)?;
        }
        Ok(())
    }

    // Counts the key, if there is one, once less.
    fn lower(&mut self, key: Option<[u8; 32]>)
        ensures { (k : List ℕ) → count_at self.new k ≡ count_at self.old k - count_in_key k key }
    {
        if let Some(key) = key {
            self.lower_at(&key);
        }
    }

    // Counts the key once less.
    fn lower_at(&mut self, key: &[u8; 32])
        ensures { (k : List ℕ) → count_at self.new k ≡ count_at self.old k - count_in_key k (Some key.now) }
    {
        let left = self.of(key).saturating_sub(1);
        if left == 0 {
            self.counts.remove(key);
        } else if let Some(count) = self.counts.get_mut(key) {
            *count = left;
        }
    }
}

// The keys of a pool: that of its terms, and that of its future terms if it is another.
fn keys_of(pool: &Pool) -> (Option<[u8; 32]>, Option<[u8; 32]>)
    ensures { (key : List ℕ) → count_in key pool.now ≡ count_in_key key result.0 + count_in_key key result.1 }
{
    let now = pool.terms.key;
    match pool.future {
        Some(terms) => (now, another(now, terms.key)),
        None => (now, None),
    }
}

// The second key, if it is not the first.
fn another(first: Option<[u8; 32]>, second: Option<[u8; 32]>) -> Option<[u8; 32]>
    ensures { result ≡ another first second }
{
    match (first, second) {
        (Some(a), Some(b)) if a.cmp(&b).is_eq() => None,
        _ => second,
    }
}
