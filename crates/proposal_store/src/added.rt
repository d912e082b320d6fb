ghost use Rattle.std.specs.Prelude.{◌≡◌, ◌+◌, ◌-◌, [], nat_lt, OnOk, OnErr, if◌then◌else◌};
ghost use Rattle.gov_ids.specs.declared.Credential.{Credential};
ghost use Rattle.gov_ids.specs.Same.{same_credential};
ghost use Rattle.proposal_store.specs.Added.{count_among, count_at, members_added};

use gov_actions::Action;
use gov_ids::Credential;
use no_memory::NoMemory;
use std::alloc::Global;
use std::collections::BTreeMap;
use std::marker::Model;

// How many times live proposals add each cold key; a key with a count of 0 has no entry.
#[derive(Drop)]
pub(crate) struct AddedKeys {
    counts: BTreeMap<Credential, u64>,
}

impl Model for AddedKeys {
    ghost use Rattle.std.specs.Prelude.{ℕ, List};
    ghost use Rattle.gov_ids.specs.declared.Credential.{Credential};

    ghost Value = { List (Credential × ℕ) };

    ghost view = { λ a. a.counts.entries };
}

impl AddedKeys {
    pub(crate) fn new(alloc: Global) -> AddedKeys
        ensures { result ≡ [] }
    {
        AddedKeys {
            counts: BTreeMap::new(alloc),
        }
    }

    pub(crate) fn has(&self, cold: &Credential) -> bool
        ensures { result ≡ nat_lt 0 (count_at self.now cold.now) }
    {
        self.of(cold) > 0
    }

    // How many times proposals add a key.
    fn of(&self, cold: &Credential) -> u64
        ensures { result ≡ count_at self.now cold.now }
    {
        self.counts.get(cold).copied().unwrap_or(0)
    }

    // Counts new members. `NoMemory`, also for a count above 64 bits, changes no count.
    pub(crate) fn raise(&mut self, add: &[(Credential, u64)]) -> Result<(), NoMemory>
        ensures ok { OnOk result ((c : Credential) → count_at self.new c ≡ count_at self.old c + count_among c add.now) }
        ensures err { OnErr result ((c : Credential) → count_at self.new c ≡ count_at self.old c) }
    {
        for (place, (cold, _)) in add.iter().enumerate() {
            let Ok(()) = self.raise_one(*cold) else {
                self.lower(&add[..place]);
                return Err(NoMemory);
            };
        }
        Ok(())
    }

    // No longer counts these members. It takes no memory.
    pub(crate) fn lower(&mut self, add: &[(Credential, u64)])
        ensures { (c : Credential) → count_at self.new c ≡ count_at self.old c - count_among c add.now }
    {
        for (cold, _) in add {
            self.lower_one(cold);
        }
    }

    // Counts a key once more. `NoMemory` changes nothing.
    fn raise_one(&mut self, cold: Credential) -> Result<(), NoMemory>
        ensures ok { OnOk result ((c : Credential) → count_at self.new c
            ≡ count_at self.old c + (if same_credential c cold then 1 else 0)) }
        ensures err { OnErr result (self.new ≡ self.old) }
    {
        let count = self.of(&cold).checked_add(1).ok_or(NoMemory)?;
        self.counts.insert(cold, count)?;
        Ok(())
    }

    // Counts a key once less.
    fn lower_one(&mut self, cold: &Credential)
        ensures { (c : Credential) → count_at self.new c
            ≡ count_at self.old c - (if same_credential c cold.now then 1 else 0) }
    {
        let left = self.of(cold).saturating_sub(1);
        if left == 0 {
            self.counts.remove(cold);
        } else if let Some(count) = self.counts.get_mut(cold) {
            *count = left;
        }
    }
}

// The members that an action adds to the committee.
pub(crate) fn new_members(action: &Action) -> &[(Credential, u64)]
    ensures { result.now ≡ members_added action.now }
{
    match action {
        Action::UpdateCommittee { add, .. } => add.as_slice(),
        _ => &[],
    }
}
