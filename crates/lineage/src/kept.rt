ghost use Rattle.std.specs.Prelude.{◌≡◌, ◌++◌, List, [], ◌∷◌, filter, OnOk, IfOk, if◌then◌else◌};
ghost use Rattle.gov_actions.specs.declared.action.Proposal.{Proposal};
ghost use Rattle.gov_actions.specs.declared.state.LastIds.{LastIds};
ghost use Rattle.gov_model.specs.Kept.{kept_of};
ghost use Rattle.gov_model.specs.Ratified.{ids_of};
ghost use Rattle.lineage.specs.Walks.{IsWalk, adopted, adopted_one, is_found, is_left, noted, noted_left, start_of};

use gov_actions::{LastIds, Purpose};
use gov_ids::ActionId;
use gov_model::kept_by_chains;
use maps::set_of;
use no_memory::NoMemory;
use proposal_store::{LiveProposal, ProposalStore};
use std::alloc::Global;
use std::collections::BTreeSet;
use std::marker::Model;

/// The ids of proposals that stay after the enacted and expired, in order of submission: those
/// without a purpose, or with a chain of such ones to the last enacted action of their purpose.
/// Each child is looked at once. (CIP-1694, Governance actions; EPOCH of the formal specification)
pub fn kept_after(
    alloc: Global,
    store: &ProposalStore,
    enacted: &[ActionId],
    expired: &[ActionId],
    last: &LastIds,
) -> Result<Vec<ActionId>, NoMemory>
    ensures { IfOk result (λ kept. kept.items ≡ ids_of (kept_of store.now enacted.now expired.now last.now)) }
{
    let leaving = Leaving {
        enacted: set_of(alloc, enacted)?,
        expired: set_of(alloc, expired)?,
    };
    kept_of_leaving(alloc, store, &leaving, last)
}

// The ids of the proposals that stay, by the sets of those that leave.
fn kept_of_leaving(
    alloc: Global,
    store: &ProposalStore,
    leaving: &Leaving,
    last: &LastIds,
) -> Result<Vec<ActionId>, NoMemory>
    ensures { IfOk result (λ kept. kept.items ≡
        ids_of (kept_of store.now leaving.now.enacted.keys leaving.now.expired.keys last.now)) }
{
    kept_by_chains();
    // (the contract of `len` tells that no two have one id)
    let _distinct = store.len();
    let mut walk = Walk::from_roots(alloc, store, leaving, last)?;
    walk.run(store)?;
    walk.found(alloc, store, leaving)
}

// The proposals that leave whatever the others do.
#[derive(Drop)]
struct Leaving {
    enacted: BTreeSet<ActionId>,
    expired: BTreeSet<ActionId>,
}

impl Leaving {
    // Whether a proposal is not among them.
    fn is_left(&self, p: &LiveProposal) -> bool
        ensures { result ≡ is_left self.now.enacted.keys self.now.expired.keys p.now }
    {
        !self.enacted.contains(&p.id()) && !self.expired.contains(&p.id())
    }
}

// How far the search from the roots has come.
#[derive(Drop)]
struct Walk {
    orphans: BTreeSet<ActionId>,
    pending: Vec<(Purpose, ActionId)>,
}

impl Model for Walk {
    ghost use Rattle.lineage.specs.Walks.{Reach};

    ghost Value = { Reach };

    ghost view = { λ a. record { orphans = a.orphans.keys; pending = a.pending.items } };
}

impl Walk {
    // Where it starts: the roots are pending, and the others orphans.
    fn from_roots(
        alloc: Global,
        store: &ProposalStore,
        leaving: &Leaving,
        last: &LastIds,
    ) -> Result<Walk, NoMemory>
        ensures { IfOk result (λ w. w ≡
            start_of last.now (filter (is_left leaving.now.enacted.keys leaving.now.expired.keys) store.now)) }
    {
        let mut walk = Walk {
            orphans: BTreeSet::new(alloc),
            pending: Vec::new(alloc),
        };
        for i in 0..store.len() {
            if let Some(p) = store.at(i) {
                walk.note_left(leaving, p, last)?;
            }
        }
        Ok(walk)
    }

    // One proposal more, if it is left.
    fn note_left(
        &mut self,
        leaving: &Leaving,
        p: &LiveProposal,
        last: &LastIds,
    ) -> Result<(), NoMemory>
        ensures { OnOk result
            (self.new ≡ noted_left leaving.now.enacted.keys leaving.now.expired.keys last.now self.old p.now) }
    {
        if leaving.is_left(p) {
            self.note(p, last)?;
        }
        Ok(())
    }

    // One proposal more.
    fn note(&mut self, p: &LiveProposal, last: &LastIds) -> Result<(), NoMemory>
        ensures { OnOk result (self.new ≡ noted last.now self.old p.now) }
    {
        let Some(purpose) = p.action().purpose() else {
            return Ok(());
        };
        if p.action().previous() == last.of(purpose) {
            self.pending.push((purpose, p.id()))?;
        } else {
            self.orphans.insert(p.id())?;
        }
        Ok(())
    }

    // Looks at the children of each pending proposal, until none is pending.
    fn run(&mut self, store: &ProposalStore) -> Result<(), NoMemory>
        ensures walks { OnOk result ((rest : List Proposal) (last : LastIds) →
            IsWalk store.now rest last self.old → IsWalk store.now rest last self.new) }
        ensures ends { OnOk result (self.new.pending ≡ []) }
    {
        while let Some((purpose, id)) = self.pending.pop() {
            self.adopt(purpose, store.children(purpose, Some(id)))?;
        }
        Ok(())
    }

    // The children of a pending proposal: those that were orphans are pending.
    fn adopt(&mut self, purpose: Purpose, children: &[ActionId]) -> Result<(), NoMemory>
        ensures { OnOk result (self.new ≡ adopted purpose children.now self.old) }
    {
        for child in children {
            self.adopt_one(purpose, child)?;
        }
        Ok(())
    }

    fn adopt_one(&mut self, purpose: Purpose, child: &ActionId) -> Result<(), NoMemory>
        ensures { OnOk result (self.new ≡ adopted_one purpose self.old child.now) }
    {
        if self.orphans.remove(child) {
            self.pending.push((purpose, *child))?;
        }
        Ok(())
    }

    // The ids of the proposals that are left and no orphans, in order of submission.
    fn found(
        &self,
        alloc: Global,
        store: &ProposalStore,
        leaving: &Leaving,
    ) -> Result<Vec<ActionId>, NoMemory>
        ensures { IfOk result (λ ids. ids.items ≡
            ids_of (filter (is_found leaving.now.enacted.keys leaving.now.expired.keys self.now) store.now)) }
    {
        let mut ids = Vec::new(alloc);
        for i in 0..store.len() {
            if let Some(p) = store.at(i) {
                self.add_found(leaving, p, &mut ids)?;
            }
        }
        Ok(ids)
    }

    // The id of a proposal joins the others, if it is left and no orphan.
    fn add_found(
        &self,
        leaving: &Leaving,
        p: &LiveProposal,
        ids: &mut Vec<ActionId>,
    ) -> Result<(), NoMemory>
        ensures { OnOk result (ids.new.items ≡ ids.old.items ++ ids_of
            (filter (is_found leaving.now.enacted.keys leaving.now.expired.keys self.now) (p.now ∷ []))) }
    {
        if leaving.is_left(p) && !self.orphans.contains(&p.id()) {
            ids.push(p.id())?;
        }
        Ok(())
    }
}
