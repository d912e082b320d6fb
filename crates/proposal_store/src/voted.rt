ghost use Rattle.std.specs.Prelude.{◌≡◌, ◌++◌, [], ◌∷◌, true, false, None, slice_get, IfSome, OnOk, OnErr, if◌then◌else◌};
ghost use Rattle.std.specs.Ordering.{eq_by_cmp};
ghost use Rattle.std.specs.List.{IsDistinct};
ghost use Rattle.gov_ids.specs.declared.Credential.{Credential};
ghost use Rattle.gov_ids.specs.Orders.{action_id_cmp, credential_cmp};
ghost use Rattle.gov_ids.specs.Same.{same_action};
ghost use Rattle.maps.specs.Maps.{has_member, without_member};
ghost use Rattle.maps.specs.Words.{some_and};
ghost use Rattle.proposal_store.specs.Voted.{noted_of, is_drep, AreOnce};

use gov_ids::{ActionId, Credential, Voter};
use listed::Listed;
use no_memory::NoMemory;
use std::alloc::Global;
use std::collections::BTreeMap;
use std::marker::Model;

// The live proposals on which each DRep has a vote; finds them without a scan.
#[derive(Drop)]
pub(crate) struct VotedOn {
    alloc: Global,
    notes: BTreeMap<Credential, Listed<ActionId>>,
}

impl Model for VotedOn {
    ghost use Rattle.std.specs.Prelude.{List};
    ghost use Rattle.gov_ids.specs.declared.ActionId.{ActionId};
    ghost use Rattle.gov_ids.specs.declared.Credential.{Credential};

    ghost Value = { List (Credential × List ActionId) };

    ghost view = { λ a. a.notes.entries };
}

impl VotedOn {
    pub(crate) fn new(alloc: Global) -> VotedOn
        ensures { result ≡ [] }
    {
        VotedOn {
            alloc,
            notes: BTreeMap::new(alloc),
        }
    }

    // The proposals of a DRep.
    pub(crate) fn of(&self, drep: &Credential) -> &[ActionId]
        ensures { result.now ≡ noted_of self.now drep.now }
    {
        match self.notes.get(drep) {
            Some(ids) => ids.as_slice(),
            None => &[],
        }
    }

    // Takes the proposals of a DRep out of the notes.
    pub(crate) fn take(&mut self, drep: &Credential) -> Listed<ActionId>
        ensures taken { result ≡ noted_of self.old drep.now }
        ensures left { (c : Credential) → noted_of self.new c ≡
            (if eq_by_cmp credential_cmp drep.now c then [] else noted_of self.old c) }
    {
        match self.notes.remove(drep) {
            Some(ids) => ids,
            None => Listed::new(self.alloc),
        }
    }

    // Notes a first vote of a voter on a proposal. `NoMemory` changes nothing.
    pub(crate) fn note_vote(&mut self, v: &Voter, id: ActionId) -> Result<(), NoMemory>
        ensures ok { OnOk result ((c : Credential) → noted_of self.new c ≡
            (if is_drep v.now c then noted_of self.old c ++ id ∷ [] else noted_of self.old c)) }
        ensures err { OnErr result (self.new ≡ self.old) }
    {
        match v {
            Voter::Drep(drep) => self.note(*drep, id),
            _ => Ok(()),
        }
    }

    // Removes the note of a vote. It takes no memory.
    pub(crate) fn forget_vote(&mut self, v: &Voter, id: &ActionId)
        requires { AreOnce self.old }
        ensures { (c : Credential) → noted_of self.new c ≡
            (if is_drep v.now c then without_member action_id_cmp id.now (noted_of self.old c) else noted_of self.old c) }
    {
        if let Voter::Drep(drep) = v {
            self.forget(drep, id);
        }
    }

    // Adds a proposal to the notes of a DRep, at the end. `NoMemory` changes nothing.
    fn note(&mut self, drep: Credential, id: ActionId) -> Result<(), NoMemory>
        ensures ok { OnOk result ((c : Credential) → noted_of self.new c ≡
            (if eq_by_cmp credential_cmp drep c then noted_of self.old c ++ id ∷ [] else noted_of self.old c)) }
        ensures err { OnErr result (self.new ≡ self.old) }
    {
        if let Some(ids) = self.notes.get_mut(&drep) {
            ids.push(id)?;
            return Ok(());
        }
        let mut ids = Listed::new(self.alloc);
        ids.push(id)?;
        self.notes.insert(drep, ids)?;
        Ok(())
    }

    // Removes a proposal from the notes of a DRep; it searches from the end.
    fn forget(&mut self, drep: &Credential, id: &ActionId)
        requires { AreOnce self.old }
        ensures { (c : Credential) → noted_of self.new c ≡ (if eq_by_cmp credential_cmp drep.now c
            then without_member action_id_cmp id.now (noted_of self.old c) else noted_of self.old c) }
    {
        let Some(ids) = self.notes.get_mut(drep) else {
            return;
        };
        take_out(ids, id);
        if ids.is_empty() {
            let emptied = self.notes.remove(drep);
            drop(emptied);
        }
    }
}

// Removes an id from a list that has each id once.
fn take_out(ids: &mut Listed<ActionId>, id: &ActionId)
    requires { IsDistinct same_action ids.old }
    ensures { ids.new ≡ without_member action_id_cmp id.now ids.old }
{
    if let Some(i) = last_place(ids.as_slice(), id) {
        ids.remove(i);
    }
}

// The last index of an id; none where the list does not have it.
fn last_place(ids: &[ActionId], id: &ActionId) -> Option<usize>
    ensures found { IfSome result (λ i. some_and (same_action id.now) (slice_get ids.now i) ≡ true) }
    ensures absent { result ≡ None → has_member action_id_cmp ids.now id.now ≡ false }
{
    for i in (0..ids.len()).rev() {
        if ids[i] == *id {
            return Some(i);
        }
    }
    None
}
