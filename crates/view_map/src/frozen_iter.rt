ghost use Rattle.std.specs.Prelude.{◌≡◌, length};
ghost use Rattle.std.specs.Iterator.{at_most};
ghost use Rattle.std.specs.Map.Iter.{TakesFirst, deref_pair};
ghost use Rattle.view_map.specs.Marks.{unchanged_in};
ghost use Rattle.view_map.specs.Walk.{merged};

use crate::peeked::Peeked;
use crate::unchanged::Unchanged;
use std::collections::btree_map::Range;
use std::marker::Model;

/// The frozen entries of a `ViewMap` that are still to come.
/// Contracts see the list of those entries, in the order of keys.
#[derive(Drop)]
pub struct FrozenIter<'a, K: Ord, V> {
    live: Unchanged<'a, K, V>,
    kept: Peeked<'a, K, V>,
}

impl<'a, K: Ord, V> Model for FrozenIter<'a, K, V> {
    ghost use Rattle.std.specs.Prelude.{List};
    ghost use Rattle.view_map.specs.Walk.{merged};

    ghost Value = { List (K × V) };

    ghost view = { λ a. merged K.cmp a.kept a.live };
}

impl<'a, K: Ord, V> FrozenIter<'a, K, V> {
    // An iterator over a range of the marked entries and the same range of the kept entries.
    pub(crate) fn new(
        mark: u64,
        live: Range<'a, K, (V, u64)>,
        kept: Range<'a, K, V>,
    ) -> FrozenIter<'a, K, V>
        ensures { result ≡ merged K.cmp kept.entry (unchanged_in mark live.entry) }
    {
        FrozenIter {
            live: Unchanged::new(mark, live),
            kept: Peeked::new(kept),
        }
    }

    /// The next entry by reference, none at the end. It copies nothing.
    #[inline]
    pub fn next_entry(&mut self) -> Option<(&'a K, &'a V)>
        ensures { TakesFirst deref_pair self.old result self.new }
    {
        let Some((key, _)) = self.kept.peek() else {
            return self.live.next();
        };
        match self.live.next_before(key) {
            Some(entry) => Some(entry),
            None => self.kept.next(),
        }
    }
}

impl<'a, K: Copy + Ord, V: Copy> Iterator for FrozenIter<'a, K, V> {
    type Item = (K, V);

    ghost next_gives = { TakesFirst (λ e. e) };

    ghost remaining = { λ s. at_most (length s) };

    fn next(&mut self) -> Option<(K, V)> {
        let (k, v) = self.next_entry()?;
        Some((*k, *v))
    }
}
