ghost use Rattle.std.specs.Prelude.{◌≡◌, [], length, OnOk, OnErr, if◌then◌else◌};
ghost use Rattle.std.specs.Option.{option_copied};
ghost use Rattle.gov_ids.specs.Orders.{credential_cmp};
ghost use Rattle.gov_ids.specs.Same.{same_credential};
ghost use Rattle.gov_model.specs.Hot.{is_hot_key};
ghost use Rattle.maps.specs.Maps.{with_key, without_member};
ghost use Rattle.maps.specs.Words.{some_and};
ghost use Rattle.committee_book.specs.Holders.{held_at, held_in, is_left};

use gov_actions::HotState;
use gov_ids::Credential;
use no_memory::NoMemory;
use std::alloc::Global;
use std::collections::{BTreeMap, BTreeSet};
use std::marker::Model;

/// The cold keys of each hot key; a hot key without any has no entry.
#[derive(Debug, Drop)]
pub(crate) struct Holders {
    alloc: Global,
    holders: BTreeMap<Credential, BTreeSet<Credential>>,
}

impl Model for Holders {
    ghost use Rattle.std.specs.Prelude.{List};
    ghost use Rattle.std.specs.BTreeSet.{BTreeSet};
    ghost use Rattle.gov_ids.specs.declared.Credential.{Credential};

    ghost Value = { List (Credential × BTreeSet Credential) };

    ghost view = { λ a. a.holders.entries };
}

impl Holders {
    /// No cold key has any.
    pub fn new(alloc: Global) -> Holders
        ensures { result ≡ [] }
    {
        Holders {
            alloc,
            holders: BTreeMap::new(alloc),
        }
    }

    /// The cold keys that have this hot key, if there are any.
    pub fn of(&self, hot: &Credential) -> Option<&BTreeSet<Credential>>
        ensures { held_in (option_copied result) ≡ held_at self.now hot.now }
    {
        self.holders.get(hot)
    }

    /// How many cold keys have this hot key.
    pub fn count(&self, hot: &Credential) -> u64
        ensures { result ≡ length (held_at self.now hot.now) }
    {
        match self.of(hot) {
            Some(cold_keys) => cold_keys.len() as u64,
            None => 0,
        }
    }

    /// The cold key gets this entry. `NoMemory`: unchanged.
    pub fn add(&mut self, cold: Credential, s: HotState) -> Result<(), NoMemory>
        ensures ok { OnOk result ((h : Credential) → held_at self.new h ≡
            (if is_hot_key h s then with_key credential_cmp cold (held_at self.old h) else held_at self.old h)) }
        ensures err { OnErr result (self.new ≡ self.old) }
    {
        match s {
            HotState::Hot(hot) => self.put(hot, cold),
            HotState::Resigned => Ok(()),
        }
    }

    /// The cold key gets this hot key. `NoMemory`: unchanged.
    fn put(&mut self, hot: Credential, cold: Credential) -> Result<(), NoMemory>
        ensures ok { OnOk result ((h : Credential) → held_at self.new h ≡
            (if same_credential hot h then with_key credential_cmp cold (held_at self.old h) else held_at self.old h)) }
        ensures err { OnErr result (self.new ≡ self.old) }
    {
        if let Some(cold_keys) = self.holders.get_mut(&hot) {
            cold_keys.insert(cold)?;
            return Ok(());
        }
        let mut cold_keys = BTreeSet::new(self.alloc);
        cold_keys.insert(cold)?;
        self.holders.insert(hot, cold_keys)?;
        Ok(())
    }

    /// A cold key has this no more, if there is anything. It takes no memory.
    pub fn take(&mut self, cold: &Credential, s: Option<HotState>)
        ensures { (h : Credential) → held_at self.new h ≡
            (if some_and (is_hot_key h) s then without_member credential_cmp cold.now (held_at self.old h) else held_at self.old h) }
    {
        if let Some(HotState::Hot(hot)) = s {
            self.lower(&hot, cold);
        }
    }

    /// A cold key that has `to` no longer has what it had before. It takes no memory.
    pub fn leave(&mut self, cold: &Credential, before: Option<HotState>, to: HotState)
        ensures { (h : Credential) → held_at self.new h ≡
            (if is_left h before to then without_member credential_cmp cold.now (held_at self.old h) else held_at self.old h) }
    {
        if let Some(HotState::Hot(hot)) = before {
            if !is_hot_key(to, &hot) {
                self.lower(&hot, cold);
            }
        }
    }

    /// A cold key has this hot key no more.
    fn lower(&mut self, hot: &Credential, cold: &Credential)
        ensures { (h : Credential) → held_at self.new h ≡
            (if same_credential hot.now h then without_member credential_cmp cold.now (held_at self.old h) else held_at self.old h) }
    {
        let Some(cold_keys) = self.holders.get_mut(hot) else {
            return;
        };
        cold_keys.remove(cold);
        if cold_keys.is_empty() {
            let emptied = self.holders.remove(hot);
            drop(emptied);
        }
    }
}

/// Whether this is that hot key.
pub(crate) fn is_hot_key(s: HotState, hot: &Credential) -> bool
    ensures { result ≡ is_hot_key hot.now s }
{
    match s {
        HotState::Hot(key) => key == *hot,
        HotState::Resigned => false,
    }
}
