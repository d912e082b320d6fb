ghost use Rattle.std.specs.Prelude.{◌≡◌, IfOk, OnOk, OnErr, option_map};
ghost use Rattle.std.specs.List.{list_any};
ghost use Rattle.std.specs.Map.{keys_of};
ghost use Rattle.gov_ids.specs.Orders.{credential_cmp};
ghost use Rattle.ledger_books.specs.of_gov_model.Hot.{is_hot_key, is_named, of_members};
ghost use Rattle.draft_changes.specs.ChangedHot.{IsOver, none_changed};
ghost use Rattle.maps.specs.Maps.{IsMap, value_at, with_value, with_values};
ghost use Rattle.maps.specs.Words.{some_and};

use coin_frac::NoMemory;
use gov_actions::{Committee, HotState};
use gov_ids::Credential;
use ledger_books::of_committee_book::HotBook;
use std::alloc::Global;
use std::marker::Model;
use std::mem;

/// The hot entries that a draft changed, and those of the book before that they cover.
/// Counts of both tell whether a hot key is named, without a scan of the entries.
#[derive(Drop)]
pub struct HotChanges {
    entries: HotBook,
    covered: HotBook,
}

impl Model for HotChanges {
    ghost use Rattle.draft_changes.specs.ChangedHot.{ChangedHot};

    ghost Value = { ChangedHot };

    ghost view = { λ a. record { entries = a.entries; covered = a.covered } };
}

impl HotChanges {
    /// No change.
    pub fn new(alloc: Global) -> HotChanges
        ensures { result ≡ none_changed }
    {
        HotChanges {
            entries: HotBook::new(alloc),
            covered: HotBook::new(alloc),
        }
    }

    /// What a cold key authorized, over this book.
    pub fn latest(&self, cold: &Credential, book: &HotBook) -> Option<HotState>
        ensures value { result ≡
            value_at credential_cmp (with_values credential_cmp self.now.entries book.now) cold.now }
        ensures in_order { IsMap credential_cmp (with_values credential_cmp self.now.entries book.now) }
    {
        let before = book.get(cold);
        self.entries.get(cold).or(before)
    }

    /// Whether a cold key has this hot key, over this book:
    /// a changed one has it, or more of the book have it than are covered.
    pub fn names(&self, hot: &Credential, book: &HotBook) -> bool
        requires over { IsOver book.now self.now }
        ensures { result ≡ is_named (with_values credential_cmp self.now.entries book.now) hot.now }
    {
        let covered = self.covered.count_of(hot);
        let before = book.count_of(hot);
        self.entries.names_hot(hot) || covered < before
    }

    /// Whether a member of the committee has this hot key, over this book.
    /// It scans the cold keys that have it, or the members if they are fewer, and no other entry.
    pub fn seats(&self, hot: &Credential, book: &HotBook, c: Option<&Committee>) -> bool
        ensures { result ≡ is_named (of_members (option_map (λ c. c.now) c.entry)
            (with_values credential_cmp self.now.entries book.now)) hot.now }
    {
        let Some(committee) = c else {
            return false;
        };
        let holders = self
            .entries
            .count_of(hot)
            .saturating_add(book.count_of(hot));
        let members = committee.members.as_slice();
        if (members.len() as u64) < holders {
            return self.is_of_member(hot, book, members);
        }
        self.entries.seats(hot, c, None) || book.seats(hot, c, Some(&self.entries))
    }

    /// Whether one of these members has this hot key, over this book: it scans them.
    fn is_of_member(&self, hot: &Credential, book: &HotBook, members: &[(Credential, u64)]) -> bool
        ensures { result ≡ list_any (λ m. some_and (is_hot_key hot.now)
            (value_at credential_cmp (with_values credential_cmp self.now.entries book.now) m.0)) members.now }
    {
        members
            .iter()
            .any(|(cold, _)| is_hot_key(self.latest(cold, book), hot))
    }

    /// The cold keys whose entry changed, in order.
    pub fn changed(&self, alloc: Global) -> Result<Vec<Credential>, NoMemory>
        ensures names { IfOk result (λ names. names.items ≡ keys_of self.now.entries) }
        ensures in_order { IsMap credential_cmp self.now.entries }
    {
        let entries = self.entries.listed(alloc)?;
        let names = entries.iter().map(|(cold, _)| *cold).collect(alloc)?;
        Ok(names)
    }

    /// Replaces the cold key's entry, over this book, by a hot key or a resignation.
    /// `NoMemory`: nothing changed.
    pub fn set(&mut self, cold: Credential, s: HotState, book: &HotBook) -> Result<(), NoMemory>
        requires over { IsOver book.now self.old }
        ensures ok { OnOk result (self.new.entries ≡ with_value credential_cmp cold s self.old.entries) }
        ensures in_order { IsMap credential_cmp self.old.entries }
        ensures over { IsOver book.now self.new }
        ensures err { OnErr result (self.new ≡ self.old) }
    {
        if self.entries.get(&cold).is_some() {
            return self.entries.set(cold, s);
        }
        self.covered.restore(cold, book.get(&cold))?;
        let put = self.entries.set(cold, s);
        if put.is_err() {
            self.covered.forget(&cold);
        }
        put
    }

    /// Lays these entries over the book. After `NoMemory` the caller drops the book.
    pub fn lay_over(self, alloc: Global, book: &mut HotBook) -> Result<(), NoMemory>
        ensures { OnOk result (book.new ≡ with_values credential_cmp self.entries book.old) }
    {
        let before = mem::replace(book, HotBook::new(alloc));
        *book = before.with_all(self.entries)?;
        Ok(())
    }
}

/// Whether a cold key has this hot key.
fn is_hot_key(s: Option<HotState>, hot: &Credential) -> bool
    ensures { result ≡ some_and (is_hot_key hot.now) s }
{
    match s {
        Some(HotState::Hot(key)) => key == *hot,
        Some(HotState::Resigned) | None => false,
    }
}
