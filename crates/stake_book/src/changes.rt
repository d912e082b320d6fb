ghost use Rattle.std.specs.Prelude.{◌≡◌, ◌≤◌};
ghost use Rattle.coin_frac.specs.declared.TheConstants.{SUPPLY_LIMIT};
ghost use Rattle.stake_book.specs.Changes.{entry_after, taken_by, unless_nothing, or_nothing};
ghost use Rattle.stake_book.specs.Sums.{weight_of};
ghost use Rattle.stake_book.specs.declared.changes.EntryChange.TheVariants.{Pay};

use crate::leaving::Leaving;
use accounts::NO_ENTRY;
use book_records::{Entry, Registered};

/// A change of an entry.
#[derive(Debug, Drop)]
pub enum EntryChange<'a> {
    /// Sets the registration, or ends it.
    Register(Option<Registered>),
    /// Adds to the stake, in lovelace.
    Gain(u64),
    /// Takes from the stake, in lovelace.
    Lose(u64),
    /// Adds to the reward balance, in lovelace; without a registration there is none.
    Pay(u64),
    /// Ends the delegation to what leaves, if there is one.
    Clear(&'a Leaving),
}

/// The entry; where there is none, one without stake and registration.
pub fn or_nothing(entry: Option<Entry>) -> Entry
    ensures { result ≡ or_nothing entry }
{
    entry.unwrap_or(NO_ENTRY)
}

/// The entry; none for one without stake and registration.
pub fn unless_nothing(e: Entry) -> Option<Entry>
    ensures { result ≡ unless_nothing e }
{
    if e.stake == 0 && e.registered.is_none() {
        None
    } else {
        Some(e)
    }
}

/// The entry after a change.
pub fn entry_after(by: &EntryChange, e: Entry) -> Entry
    requires enough { taken_by by.now ≤ e.stake }
    requires within { weight_of (entry_after by.now e) ≤ SUPPLY_LIMIT }
    ensures { result ≡ entry_after by.now e }
{
    match by {
        EntryChange::Register(to) => Entry {
            registered: *to,
            ..e
        },
        EntryChange::Gain(n) => Entry {
            stake: e.stake + *n,
            ..e
        },
        EntryChange::Lose(n) => Entry {
            stake: e.stake - *n,
            ..e
        },
        EntryChange::Pay(n) => paid(e, *n),
        EntryChange::Clear(leaving) => Entry {
            registered: leaving.change(e.registered).or(e.registered),
            ..e
        },
    }
}

// The entry with n lovelace more in its reward balance, if it is registered.
fn paid(e: Entry, n: u64) -> Entry
    requires { weight_of (entry_after (Pay n) e) ≤ SUPPLY_LIMIT }
    ensures { result ≡ entry_after (Pay n) e }
{
    let Some(r) = e.registered else {
        return e;
    };
    let rewards = r.rewards + n;
    Entry {
        registered: Some(Registered { rewards, ..r }),
        ..e
    }
}
