//! The book of accounts: the live entries, and those of the last freeze.
#![tactic(auto)]

ghost use Rattle.std.specs.Prelude.{◌≡◌, [], IfOk, OnOk, OnErr, length, option_map};
ghost use Rattle.gov_ids.specs.Orders.{credential_cmp};
ghost use Rattle.maps.specs.Maps.{IsMap, value_at, entry_after};
ghost use Rattle.maps.specs.Replaced.{with_option};
ghost use Rattle.view_map.specs.View.{IsInOrder, frozen_of};
ghost use Rattle.view_map.specs.Walk.{entries_past};
ghost use Rattle.accounts.specs.Accounts.{is_nothing, entered};

pub use book_records::{Entry, Registered};
use gov_ids::Credential;
use gov_ids::of_no_memory::NoMemory;
use std::alloc::Global;
use std::marker::Model;
use view_map::ViewMap;
pub use view_map::{Follower, FrozenIter, LiveIter};

/// The account entries by credential, live and frozen. Contracts see the `ViewMap`.
/// (DState of the formal specification; the frozen entries are own)
#[derive(Drop)]
pub struct AccountBook {
    view: ViewMap<Credential, Entry>,
}

impl Model for AccountBook {
    ghost use Rattle.accounts.specs.Accounts.{Accounts};

    ghost Value = { Accounts };

    ghost view = { λ a. a.view };
}

/// The entry of whoever has neither stake nor a registration.
pub const NO_ENTRY: Entry = Entry {
    stake: 0,
    registered: None,
};

// Whether an entry has neither stake nor a registration.
fn is_empty(e: &Entry) -> bool
    ensures { result ≡ is_nothing e.now }
{
    e.stake == 0 && e.registered.is_none()
}

impl AccountBook {
    /// A book with no entry, live or frozen. (DState of the formal specification)
    pub fn new(alloc: Global) -> AccountBook
        ensures { result ≡ record { live = []; frozen = [] } }
    {
        AccountBook {
            view: ViewMap::new(alloc),
        }
    }

    /// The entries, live and frozen: all that a book holds.
    pub fn into_view(self) -> ViewMap<Credential, Entry>
        ensures { result ≡ self }
    {
        // No `..` in the pattern: with a further field it does not compile.
        let AccountBook { view } = self;
        view
    }

    /// The live entry of a credential, if there is one. (DState of the formal specification)
    pub fn get(&self, c: &Credential) -> Option<Entry>
        ensures value { result ≡ value_at credential_cmp self.now.live c.now }
        ensures in_order { IsInOrder credential_cmp self.now }
    {
        self.view.get(c)
    }

    /// Sets a live entry. One without stake and registration removes the entry instead.
    /// `NoMemory` leaves the book unchanged.
    pub fn put(&mut self, c: Credential, e: Entry) -> Result<(), NoMemory>
        ensures ok { OnOk result (self.new ≡ entered c e self.old) }
        ensures frozen { frozen_of credential_cmp self.new ≡ frozen_of credential_cmp self.old }
        ensures err { OnErr result (self.new ≡ self.old) }
    {
        if is_empty(&e) {
            self.view.remove(&c)?;
        } else {
            self.view.put(c, e)?;
        }
        Ok(())
    }

    /// Changes the live entry of a credential, in one search, and returns the entry before.
    /// `NoMemory` leaves the book unchanged, and the follower has followed no change.
    pub fn change<C, S: Follower<Entry, C>>(
        &mut self,
        c: Credential,
        by: &C,
        follower: &mut S,
    ) -> Result<Option<Entry>, NoMemory>
        requires { S.can_follow follower.old by.now (value_at credential_cmp self.old.live c) }
        ensures value { IfOk result (λ e. e ≡ value_at credential_cmp self.old.live c) }
        ensures ok { OnOk result (self.new ≡ record self.old {
          live = with_option credential_cmp c
              (S.value_after by.now (value_at credential_cmp self.old.live c)) self.old.live;
        }) }
        ensures frozen { frozen_of credential_cmp self.new ≡ frozen_of credential_cmp self.old }
        ensures follower { OnOk result (S.has_followed follower.old (value_at credential_cmp self.old.live c)
            (S.value_after by.now (value_at credential_cmp self.old.live c)) follower.new) }
        ensures err { OnErr result (self.new ≡ self.old) }
        ensures follower_err { OnErr result (S.has_followed follower.old (value_at credential_cmp self.old.live c)
            (value_at credential_cmp self.old.live c) follower.new) }
    {
        let before = self.view.change(c, NO_ENTRY, by, follower)?;
        Ok(before)
    }

    /// Sets the frozen entry of a credential; `None` means that it had none.
    /// The live entry stays. `NoMemory` leaves the book unchanged.
    pub fn note_first(&mut self, c: Credential, first: Option<Entry>) -> Result<(), NoMemory>
        ensures ok { OnOk result (self.new ≡
            record self.old { frozen = with_option credential_cmp c first self.old.frozen }) }
        ensures err { OnErr result (self.new ≡ self.old) }
    {
        self.view.note_first(c, first)?;
        Ok(())
    }

    /// Makes the live entries the frozen ones. It takes no memory and copies no entry.
    /// (SNAP of the formal specification; how it is kept is own)
    pub fn freeze(&mut self)
        ensures fields { self.new ≡ record self.old { frozen = self.old.live } }
        ensures frozen { frozen_of credential_cmp self.new ≡ self.old.live }
    {
        self.view.freeze();
    }

    /// The entry of a credential at the last freeze, if it had one.
    pub fn frozen_get(&self, c: &Credential) -> Option<Entry>
        ensures { result ≡ value_at credential_cmp (frozen_of credential_cmp self.now) c.now }
    {
        self.view.frozen_get(c)
    }

    /// The frozen entries after a credential, or all of them, in order of credentials.
    /// It searches once, and then goes on step by step. It takes no memory.
    pub fn frozen_past(&self, after: Option<&Credential>) -> FrozenIter<'_, Credential, Entry>
        ensures { result ≡
            entries_past credential_cmp (option_map (λ c. c.now) after.entry) (frozen_of credential_cmp self.now) }
    {
        self.view.frozen_past(after)
    }

    /// The next frozen entry in order of credentials after this one, or the first of all.
    pub fn frozen_next(&self, after: Option<&Credential>) -> Option<(Credential, Entry)>
        ensures { result ≡
            entry_after credential_cmp (option_map (λ c. c.now) after.entry) (frozen_of credential_cmp self.now) }
    {
        self.view.frozen_next(after)
    }

    /// How many frozen entries there are.
    pub fn frozen_len(&self) -> u64
        ensures len { result ≡ length (frozen_of credential_cmp self.now) }
        ensures in_order { IsMap credential_cmp (frozen_of credential_cmp self.now) }
    {
        self.view.frozen_len()
    }

    /// The live entries in order of credentials. It takes no memory.
    /// (DState of the formal specification)
    pub fn iter(&self) -> LiveIter<'_, Credential, Entry>
        ensures { result ≡ self.now.live }
    {
        self.view.iter()
    }

    /// The next live entry in order of credentials after this one, or the first of all.
    /// (DState of the formal specification)
    pub fn next(&self, after: Option<&Credential>) -> Option<(Credential, Entry)>
        ensures { result ≡ entry_after credential_cmp (option_map (λ c. c.now) after.entry) self.now.live }
    {
        self.view.next(after)
    }
}
