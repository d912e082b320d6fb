ghost use Rattle.std.specs.Prelude.{◌≡◌, drop, option_map};
ghost use Rattle.std.specs.Map.Iter.{TakesFirst, deref_pair};
ghost use Rattle.view_map.specs.Marks.{unchanged_in};
ghost use Rattle.view_map.specs.Walk.{taken_before};

use std::cmp::Ordering;
use std::collections::btree_map::Range;
use std::marker::Model;

// The rest of a range: its entries that have not changed since the freeze. It shows the first.
// Contracts see the list of those entries.
#[derive(Drop)]
pub(crate) struct Unchanged<'a, K, V> {
    mark: u64,
    first: Option<(&'a K, &'a V)>,
    rest: Range<'a, K, (V, u64)>,
}

impl<'a, K, V> Model for Unchanged<'a, K, V> {
    ghost use Rattle.std.specs.Prelude.{◌≡◌, List, [], IfNone, option_map};
    ghost use Rattle.std.specs.List.{cons_option};
    ghost use Rattle.std.specs.Map.Iter.{deref_pair};
    ghost use Rattle.view_map.specs.Marks.{unchanged_in};

    ghost Value = { List (K × V) };

    ghost view = { λ a. cons_option (option_map deref_pair a.first) (unchanged_in a.mark a.rest) };

    ghost invariant = { λ a. IfNone a.first (unchanged_in a.mark a.rest ≡ []) };
}

// The next entry that has not changed since the freeze, none at the end. It skips the changed ones.
fn next_unchanged<'a, K, V>(mark: u64, rest: &mut Range<'a, K, (V, u64)>) -> Option<(&'a K, &'a V)>
    ensures { TakesFirst deref_pair (unchanged_in mark rest.old) result (unchanged_in mark rest.new) }
{
    while let Some((key, (value, since))) = rest.next() {
        if *since != mark {
            return Some((key, value));
        }
    }
    None
}

impl<'a, K, V> Unchanged<'a, K, V> {
    pub(crate) fn new(mark: u64, mut rest: Range<'a, K, (V, u64)>) -> Unchanged<'a, K, V>
        ensures { result ≡ unchanged_in mark rest.entry }
    {
        let first = next_unchanged(mark, &mut rest);
        Unchanged { mark, first, rest }
    }

    // The first entry, none at the end.
    #[inline]
    pub(crate) fn peek(&self) -> Option<(&'a K, &'a V)>
        ensures { TakesFirst deref_pair self.now result (drop 1 self.now) }
    {
        self.first
    }

    // Removes and returns the first entry, none at the end.
    #[inline]
    pub(crate) fn next(&mut self) -> Option<(&'a K, &'a V)>
        ensures { TakesFirst deref_pair self.old result self.new }
    {
        let first = self.first;
        self.first = next_unchanged(self.mark, &mut self.rest);
        first
    }
}

impl<'a, K: Ord, V> Unchanged<'a, K, V> {
    // Removes and returns the first entry if it is before a key. It drops an entry at the key.
    pub(crate) fn next_before(&mut self, key: &K) -> Option<(&'a K, &'a V)>
        ensures { (option_map deref_pair result, self.new) ≡ taken_before K.cmp key.now self.old }
    {
        let (k, _) = self.peek()?;
        match k.cmp(key) {
            Ordering::Less => self.next(),
            Ordering::Equal => {
                self.next();
                None
            }
            Ordering::Greater => None,
        }
    }
}
