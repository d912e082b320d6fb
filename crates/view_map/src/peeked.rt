ghost use Rattle.std.specs.Prelude.{◌≡◌, drop};
ghost use Rattle.std.specs.Map.Iter.{TakesFirst, deref_pair};

use std::collections::btree_map::Range;
use std::marker::Model;

// A range of a map that shows its first entry. Contracts see the list of its entries.
#[derive(Drop)]
pub(crate) struct Peeked<'a, K, V> {
    first: Option<(&'a K, &'a V)>,
    rest: Range<'a, K, V>,
}

impl<'a, K, V> Model for Peeked<'a, K, V> {
    ghost use Rattle.std.specs.Prelude.{◌≡◌, List, [], IfNone, option_map};
    ghost use Rattle.std.specs.List.{cons_option};
    ghost use Rattle.std.specs.Map.Iter.{deref_pair};

    ghost Value = { List (K × V) };

    ghost view = { λ a. cons_option (option_map deref_pair a.first) a.rest };

    ghost invariant = { λ a. IfNone a.first (a.rest ≡ []) };
}

impl<'a, K, V> Peeked<'a, K, V> {
    pub(crate) fn new(mut rest: Range<'a, K, V>) -> Peeked<'a, K, V>
        ensures { result ≡ rest.entry }
    {
        let first = rest.next();
        Peeked { first, rest }
    }

    // The first entry, none at the end.
    #[inline]
    pub(crate) fn peek(&self) -> Option<(&'a K, &'a V)>
        ensures { TakesFirst deref_pair self.now result (drop 1 self.now) }
    {
        self.first
    }

    // Removes and returns the first entry, none at the end.
    #[inline]
    pub(crate) fn next(&mut self) -> Option<(&'a K, &'a V)>
        ensures { TakesFirst deref_pair self.old result self.new }
    {
        let first = self.first;
        self.first = self.rest.next();
        first
    }
}
