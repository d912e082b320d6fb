ghost use Rattle.std.specs.Prelude.{◌≡◌, ◌++◌, [], ◌∷◌, OnOk, OnErr, if◌then◌else◌};
ghost use Rattle.std.specs.Ordering.{eq_by_cmp};
ghost use Rattle.gov_model.specs.Proposals.{children_of, is_child};
ghost use Rattle.proposal_store.specs.declared.families.Parent.{Parent};
ghost use Rattle.proposal_store.specs.Families.{parent_cmp, ids_at, all_but_last};

use crate::live::LiveProposal;
use gov_actions::Purpose;
use gov_ids::ActionId;
use listed::Listed;
use no_memory::NoMemory;
use std::alloc::Global;
use std::collections::BTreeMap;
use std::marker::Model;

// What an action with a purpose follows.
#[derive(Clone, Copy, PartialEq, Eq, PartialOrd, Ord)]
pub(crate) struct Parent {
    pub(crate) purpose: Purpose,
    pub(crate) previous: Option<ActionId>,
}

// The ids of the proposals that follow each parent, in order of submission.
#[derive(Drop)]
pub(crate) struct Families {
    alloc: Global,
    index: BTreeMap<Parent, Listed<ActionId>>,
}

impl Model for Families {
    ghost use Rattle.std.specs.Prelude.{List};
    ghost use Rattle.gov_ids.specs.declared.ActionId.{ActionId};
    ghost use Rattle.proposal_store.specs.declared.families.Parent.{Parent};

    ghost Value = { List (Parent × List ActionId) };

    ghost view = { λ a. a.index.entries };
}

impl Families {
    pub(crate) fn new(alloc: Global) -> Families
        ensures { result ≡ [] }
    {
        Families {
            alloc,
            index: BTreeMap::new(alloc),
        }
    }

    pub(crate) fn get(&self, parent: &Parent) -> &[ActionId]
        ensures { result.now ≡ ids_at self.now parent.now }
    {
        match self.index.get(parent) {
            Some(ids) => ids.as_slice(),
            None => &[],
        }
    }

    // Adds a child at the end. `NoMemory` changes nothing.
    fn add(&mut self, parent: Parent, id: ActionId) -> Result<(), NoMemory>
        ensures ok { OnOk result ((q : Parent) → ids_at self.new q ≡
            (if eq_by_cmp parent_cmp parent q then ids_at self.old q ++ id ∷ [] else ids_at self.old q)) }
        ensures err { OnErr result (self.new ≡ self.old) }
    {
        if let Some(ids) = self.index.get_mut(&parent) {
            ids.push(id)?;
            return Ok(());
        }
        let mut ids = Listed::new(self.alloc);
        ids.push(id)?;
        self.index.insert(parent, ids)?;
        Ok(())
    }

    // Adds a proposal with a purpose to the children of its parent. `NoMemory` changes nothing.
    pub(crate) fn note(&mut self, p: &LiveProposal) -> Result<(), NoMemory>
        ensures ok { OnOk result ((q : Parent) →
            ids_at self.new q ≡ ids_at self.old q ++ children_of q.purpose q.previous (p.now ∷ [])) }
        ensures err { OnErr result (self.new ≡ self.old) }
    {
        let previous = p.action().previous();
        match p.action().purpose() {
            Some(purpose) => self.add(Parent { purpose, previous }, p.id()),
            None => Ok(()),
        }
    }

    // Removes a proposal that is the last child of its parent. It takes no memory.
    pub(crate) fn forget_last(&mut self, p: &LiveProposal)
        ensures { (q : Parent) → ids_at self.new q ≡ (if is_child q.purpose q.previous p.now
            then all_but_last (ids_at self.old q) else ids_at self.old q) }
    {
        let previous = p.action().previous();
        if let Some(purpose) = p.action().purpose() {
            self.drop_last(&Parent { purpose, previous });
        }
    }

    // Removes the last child.
    fn drop_last(&mut self, parent: &Parent)
        ensures { (q : Parent) → ids_at self.new q ≡ (if eq_by_cmp parent_cmp parent.now q
            then all_but_last (ids_at self.old q) else ids_at self.old q) }
    {
        let Some(ids) = self.index.get_mut(parent) else {
            return;
        };
        cut_last(ids);
        if ids.is_empty() {
            let emptied = self.index.remove(parent);
            drop(emptied);
        }
    }
}

// Removes the last id, if there is one.
fn cut_last(ids: &mut Listed<ActionId>)
    ensures { ids.new ≡ all_but_last ids.old }
{
    if let Some(last) = ids.len().checked_sub(1) {
        ids.remove(last);
    }
}
