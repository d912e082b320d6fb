ghost use Rattle.std.specs.Prelude.{◌≡◌, length};
ghost use Rattle.std.specs.Iterator.{at_most};
ghost use Rattle.std.specs.Map.Iter.{TakesFirst, deref_pair};
ghost use Rattle.view_map.specs.Marks.{values_in};

use std::collections::btree_map::Iter;
use std::marker::Model;

/// The live entries of a `ViewMap` that are still to come.
/// Contracts see the list of those entries, in the order of keys.
#[derive(Drop)]
pub struct LiveIter<'a, K, V> {
    rest: Iter<'a, K, (V, u64)>,
}

impl<'a, K, V> Model for LiveIter<'a, K, V> {
    ghost use Rattle.std.specs.Prelude.{List};
    ghost use Rattle.view_map.specs.Marks.{values_in};

    ghost Value = { List (K × V) };

    ghost view = { λ a. values_in a.rest };
}

impl<'a, K, V> LiveIter<'a, K, V> {
    // An iterator over marked entries.
    pub(crate) fn new(rest: Iter<'a, K, (V, u64)>) -> LiveIter<'a, K, V>
        ensures { result ≡ values_in rest.entry }
    {
        LiveIter { rest }
    }
}

impl<'a, K, V> Iterator for LiveIter<'a, K, V> {
    type Item = (&'a K, &'a V);

    ghost next_gives = { TakesFirst deref_pair };

    ghost remaining = { λ s. at_most (length s) };

    fn next(&mut self) -> Option<(&'a K, &'a V)> {
        let (key, (value, _)) = self.rest.next()?;
        Some((key, value))
    }
}
