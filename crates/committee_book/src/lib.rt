//! The book of what the committee's cold keys authorized.
#![tactic(auto)]

ghost use Rattle.std.specs.Prelude.{◌≡◌, [], ◌&&◌, not, option_map, IfOk, OnOk, OnErr};
ghost use Rattle.gov_ids.specs.Orders.{credential_cmp};
ghost use Rattle.maps.specs.Maps.{IsMap, entry_after, has_key, value_at, with_value, with_values, without_key};
ghost use Rattle.maps.specs.Replaced.{with_option};
ghost use Rattle.maps.specs.Words.{some_and};
ghost use Rattle.std.specs.List.{list_any};
ghost use Rattle.gov_model.specs.Hot.{is_hot_key, is_named, is_member, of_members};
ghost use Rattle.gov_model.specs.Sides.{members_of};
ghost use Rattle.committee_book.specs.Counts.{count_of};
ghost use Rattle.committee_book.specs.Holders.{AreHeld, IsIndexed, entries_beside};

mod holders;

pub use gov_actions as of_gov_actions;
use gov_actions::{Committee, HotState};
use gov_ids::Credential;
use holders::{Holders, is_hot_key};
use maps::keys_past;
use no_memory::NoMemory;
use std::alloc::Global;
use std::collections::BTreeMap;
use std::marker::Model;

/// The hot key or the resignation of each cold key that has one, in the order of cold keys.
/// An index of the cold keys of each hot key saves a scan of the entries.
/// (GState of the formal specification: ccHotKeys; the index is own)
#[derive(Debug)]
pub struct HotBook {
    entries: BTreeMap<Credential, HotState>,
    holders: Holders,
}

// The drop is proved here once; a derived one is proved again, part by part, in each crate above.
impl Drop for HotBook {
    fn drop(self) {
        let HotBook {
            entries: _entries,
            holders: _holders,
        } = self;
    }
}

impl Model for HotBook {
    ghost use Rattle.std.specs.Prelude.{List};
    ghost use Rattle.gov_ids.specs.declared.Credential.{Credential};
    ghost use Rattle.gov_actions.specs.declared.state.HotState.{HotState};
    ghost use Rattle.committee_book.specs.Holders.{IsIndexed};

    ghost Value = { List (Credential × HotState) };

    ghost view = { λ a. a.entries.entries };

    ghost invariant = { λ a. IsIndexed a.entries.entries a.holders };
}

impl HotBook {
    /// A book with no entry. (GState of the formal specification)
    pub fn new(alloc: Global) -> HotBook
        ensures { result ≡ [] }
    {
        HotBook {
            entries: BTreeMap::new(alloc),
            holders: Holders::new(alloc),
        }
    }

    /// What a cold key has authorized, if anything. (GState of the formal specification)
    pub fn get(&self, cold: &Credential) -> Option<HotState>
        ensures value { result ≡ value_at credential_cmp self.now cold.now }
        ensures in_order { IsMap credential_cmp self.now }
    {
        self.entries.get(cold).copied()
    }

    /// A hot key or a resignation replaces what the cold key had. `NoMemory`: unchanged.
    /// (GOVCERT of the formal specification)
    pub fn set(&mut self, cold: Credential, s: HotState) -> Result<(), NoMemory>
        ensures ok { OnOk result (self.new ≡ with_value credential_cmp cold s self.old) }
        ensures err { OnErr result (self.new ≡ self.old) }
    {
        self.holders.add(cold, s)?;
        let Ok(before) = self.entries.insert(cold, s) else {
            self.holders.take(&cold, Some(s));
            return Err(NoMemory);
        };
        self.holders.leave(&cold, before, s);
        Ok(())
    }

    /// Forgets what a cold key authorized. It takes no memory. (EPOCH of the formal specification)
    pub fn forget(&mut self, cold: &Credential)
        ensures { self.new ≡ without_key credential_cmp cold.now self.old }
    {
        let forgotten = self.entries.remove(cold);
        self.holders.take(cold, forgotten);
    }

    /// What the cold key has becomes `to`. `NoMemory`: unchanged.
    pub fn restore(&mut self, cold: Credential, to: Option<HotState>) -> Result<(), NoMemory>
        ensures ok { OnOk result (self.new ≡ with_option credential_cmp cold to self.old) }
        ensures err { OnErr result (self.new ≡ self.old) }
    {
        match to {
            Some(s) => self.set(cold, s),
            None => {
                self.forget(&cold);
                Ok(())
            }
        }
    }

    /// Each entry of another book replaces what its cold key had.
    pub fn with_all(self, changed: HotBook) -> Result<HotBook, NoMemory>
        ensures { IfOk result (λ after. after ≡ with_values credential_cmp changed self) }
    {
        let mut book = self;
        let HotBook {
            entries,
            holders: _holders,
        } = changed;
        for (cold, s) in entries {
            book.set(cold, s)?;
        }
        Ok(book)
    }

    /// Whether a cold key has this hot key, so that it may vote. (GOV of the formal specification)
    pub fn names_hot(&self, hot: &Credential) -> bool
        ensures named { result ≡ is_named self.now hot.now }
        ensures in_order { IsMap credential_cmp self.now }
    {
        self.holders.count(hot) > 0
    }

    /// How many cold keys have this hot key.
    pub fn count_of(&self, hot: &Credential) -> u64
        ensures count { result ≡ count_of self.now hot.now }
        ensures in_order { IsMap credential_cmp self.now }
    {
        self.holders.count(hot)
    }

    /// Whether a member has this hot key; entries of cold keys with one in `changed` do not count.
    /// It scans the cold keys that have it or the members, whichever are fewer.
    /// (GOV of the formal specification; `changed` is own)
    pub fn seats(&self, hot: &Credential, c: Option<&Committee>, changed: Option<&HotBook>) -> bool
        ensures seated { result ≡ is_named (of_members (option_map (λ c. c.now) c.entry)
            (entries_beside (option_map (λ b. b.now) changed.entry) self.now)) hot.now }
        ensures in_order { IsMap credential_cmp self.now }
    {
        let Some(cold_keys) = self.holders.of(hot) else {
            return false;
        };
        let members = members_of(c);
        if members.len() < cold_keys.len() {
            return self.seats_among(hot, members, changed);
        }
        cold_keys.iter().any(|cold| is_seat(c, changed, cold))
    }

    // Whether one of these members has this hot key, with an entry that counts.
    fn seats_among(
        &self,
        hot: &Credential,
        members: &[(Credential, u64)],
        changed: Option<&HotBook>,
    ) -> bool
        ensures { result ≡ list_any (λ m. some_and (is_hot_key hot.now) (value_at credential_cmp self.now m.0)
            && not (some_and (λ es. has_key credential_cmp es m.0) (option_map (λ b. b.now) changed.entry))) members.now }
    {
        members.iter().any(|(cold, _)| self.has_hot(cold, hot) && !has_entry(changed, cold))
    }

    // Whether a cold key has this hot key.
    fn has_hot(&self, cold: &Credential, hot: &Credential) -> bool
        ensures { result ≡ some_and (is_hot_key hot.now) (value_at credential_cmp self.now cold.now) }
    {
        match self.get(cold) {
            Some(s) => is_hot_key(s, hot),
            None => false,
        }
    }

    /// Only members keep their entries; without a committee none is left.
    /// (EPOCH of the formal specification)
    pub fn keep_members(&mut self, c: Option<&Committee>)
        ensures { self.new ≡ of_members (option_map (λ c. c.now) c.entry) self.old }
    {
        take_others(&mut self.holders, &self.entries, c);
        self.entries.retain(|cold, _| is_member(c, cold));
    }

    /// The next entry after a cold key, or the first, in the order of cold keys; none at the end.
    /// (GState of the formal specification)
    pub fn next(&self, after: Option<&Credential>) -> Option<(Credential, HotState)>
        ensures value { result ≡ entry_after credential_cmp (option_map (λ c. c.now) after.entry) self.now }
        ensures in_order { IsMap credential_cmp self.now }
    {
        let (cold, s) = self.entries.range(keys_past(after)).next()?;
        Some((*cold, *s))
    }

    /// All entries in the order of cold keys, in one scan. (GState of the formal specification)
    pub fn listed(&self, alloc: Global) -> Result<Vec<(Credential, HotState)>, NoMemory>
        ensures value { IfOk result (λ l. l.items ≡ self.now) }
        ensures in_order { IsMap credential_cmp self.now }
    {
        let mut listed = Vec::new(alloc);
        for (cold, s) in &self.entries {
            listed.push((*cold, *s))?;
        }
        Ok(listed)
    }
}

/// The holders of hot keys without the cold keys that are no members.
fn take_others(
    holders: &mut Holders,
    entries: &BTreeMap<Credential, HotState>,
    c: Option<&Committee>,
)
    requires { IsIndexed entries.now.entries holders.old }
    ensures { AreHeld (of_members (option_map (λ c. c.now) c.entry) entries.now.entries) holders.new }
{
    for (cold, s) in entries {
        if !is_member(c, cold) {
            holders.take(cold, Some(*s));
        }
    }
}

/// Whether a cold key is a member whose entry counts.
fn is_seat(c: Option<&Committee>, changed: Option<&HotBook>, cold: &Credential) -> bool
    ensures { result ≡ (is_member (option_map (λ c. c.now) c.entry) cold.now
        && not (some_and (λ es. has_key credential_cmp es cold.now) (option_map (λ b. b.now) changed.entry))) }
{
    is_member(c, cold) && !has_entry(changed, cold)
}

/// Whether a cold key has an entry among the changed, if any are changed.
fn has_entry(changed: Option<&HotBook>, cold: &Credential) -> bool
    ensures { result ≡ some_and (λ es. has_key credential_cmp es cold.now) (option_map (λ b. b.now) changed.entry) }
{
    let Some(book) = changed else {
        return false;
    };
    book.get(cold).is_some()
}

// The members of the committee; none without a committee.
fn members_of(c: Option<&Committee>) -> &[(Credential, u64)]
    ensures { result.now ≡ members_of (option_map (λ c. c.now) c.entry) }
{
    match c {
        Some(committee) => committee.members.as_slice(),
        None => &[],
    }
}

/// Whether a cold key is a member of the committee; without a committee none is.
/// (CIP-1694, The constitutional committee)
pub fn is_member(c: Option<&Committee>, cold: &Credential) -> bool
    ensures { result ≡ is_member (option_map (λ c. c.now) c.entry) cold.now }
{
    match c {
        Some(committee) => committee.members.contains(cold),
        None => false,
    }
}
