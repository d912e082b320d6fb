ghost use Rattle.std.specs.Prelude.{◌≡◌, ◌+◌, ◌^◌, ◌<◌, ◌++◌, [], ◌∷◌, false, None, filter, map, length, slice_get, take, OnOk, OnErr, IfOk, if◌then◌else◌};
ghost use Rattle.std.specs.Option.{option_copied};
ghost use Rattle.std.specs.List.{IsDistinct};
ghost use Rattle.std.specs.Map.{values_of};
ghost use Rattle.gov_ids.specs.declared.ActionId.{ActionId};
ghost use Rattle.gov_ids.specs.declared.Voter.TheVariants.{Drep};
ghost use Rattle.gov_ids.specs.Orders.{action_id_cmp, voter_cmp};
ghost use Rattle.gov_ids.specs.Same.{same_action};
ghost use Rattle.gov_model.specs.Ratified.{ids_of};
ghost use Rattle.gov_model.specs.Proposals.{proposal_of, children_of, deposits_of, those_of, others_than, with_vote, without_vote, with_change};
ghost use Rattle.maps.specs.Maps.{IsMap, has_member};
ghost use Rattle.gov_ids.specs.declared.Credential.{Credential};
ghost use Rattle.proposal_store.specs.declared.families.Parent.{Parent};
ghost use Rattle.proposal_store.specs.Added.{count_among, count_at, is_proposed, members_added};
ghost use Rattle.proposal_store.specs.Families.{all_but_last, ids_at};
ghost use Rattle.proposal_store.specs.Voted.{has_vote, is_noted, is_voted_on, noted_of, AreOnce};
ghost use Rattle.proposal_store.specs.Leaving.{without_votes_of};
ghost use Rattle.proposal_store.specs.Changes.{each, changing, dropping};
ghost use Rattle.proposal_store.specs.Store.{AllKeyed, AllOrdered, is_in, is_out};

use crate::added::{AddedKeys, new_members};
use crate::families::{Families, Parent};
use crate::live::LiveProposal;
use crate::voted::VotedOn;
use gov_actions::{Proposal, Purpose, Vote};
use gov_ids::{ActionId, Credential, Voter};
use hash_seed::HashSeed;
use indexmap::IndexMap;
use maps::set_of;
use no_memory::NoMemory;
use std::alloc::Global;
use std::collections::BTreeSet;
use std::marker::Model;
use std::mem;

/// The live proposals with their votes, in order of submission.
/// (GovState of the formal specification)
pub struct ProposalStore {
    alloc: Global,
    proposals: IndexMap<ActionId, LiveProposal, HashSeed>,
    families: Families,
    voted: VotedOn,
    added: AddedKeys,
    deposits: u64,
}

// By hand, so that it is proved once: each crate above would prove a derived one part by part.
impl Drop for ProposalStore {
    fn drop(self) {
        let ProposalStore {
            alloc: _alloc,
            proposals: _proposals,
            families: _families,
            voted: _voted,
            added: _added,
            deposits: _deposits,
        } = self;
    }
}

impl Model for ProposalStore {
    ghost use Rattle.std.specs.Prelude.{List};
    ghost use Rattle.std.specs.Map.{values_of};
    ghost use Rattle.gov_actions.specs.declared.action.Proposal.{Proposal};
    ghost use Rattle.proposal_store.specs.Store.{IsStore};
    ghost use Rattle.proposal_store.specs.Voted.{AreNoted};

    ghost Value = { List Proposal };

    ghost view = { λ a. values_of a.proposals.entries };

    ghost invariant = { λ a. IsStore a.proposals.entries a.families a.added a.deposits
        × AreNoted a.voted (values_of a.proposals.entries) };
}

impl ProposalStore {
    /// A store without proposals; the seed is of the table of their ids.
    /// (GovState of the formal specification)
    pub fn new(alloc: Global, seed: HashSeed) -> ProposalStore
        ensures { result ≡ [] }
    {
        ProposalStore {
            alloc,
            proposals: IndexMap::with_hasher(alloc, seed),
            families: Families::new(alloc),
            voted: VotedOn::new(alloc),
            added: AddedKeys::new(alloc),
            deposits: 0,
        }
    }

    /// The proposal of an id, without a scan. (GovState of the formal specification)
    pub fn get(&self, id: &ActionId) -> Option<&LiveProposal>
        ensures { option_copied result ≡ proposal_of id.now self.now }
    {
        self.proposals.get(id)
    }

    /// How many proposals there are. (GovState of the formal specification)
    pub fn len(&self) -> u64
        ensures count { result ≡ length self.now }
        ensures distinct { IsDistinct same_action (ids_of self.now) }
    {
        self.proposals.len() as u64
    }

    /// The proposal at index `i` in order of submission, from 0; none past the end.
    /// (GovState of the formal specification)
    pub fn at(&self, i: u64) -> Option<&LiveProposal>
        ensures { option_copied result ≡ slice_get self.now i }
    {
        let (_, p) = self.proposals.get_index(i as usize)?;
        Some(p)
    }

    /// The sum of the deposits, in lovelace. (GovState of the formal specification)
    pub fn deposits(&self) -> u64
        ensures { result ≡ deposits_of self.now }
    {
        self.deposits
    }

    /// The ids of the proposals of a purpose whose previous action is `previous`.
    /// In order of submission, without a scan. (CIP-1694, Governance actions: Content)
    pub fn children(&self, purpose: Purpose, previous: Option<ActionId>) -> &[ActionId]
        ensures { result.now ≡ children_of purpose previous self.now }
    {
        self.families.get(&Parent { purpose, previous })
    }

    /// Whether a live proposal adds a cold key to the committee, without a scan.
    /// (GOVCERT of the formal specification)
    pub fn adds(&self, cold: &Credential) -> bool
        ensures { result ≡ is_proposed cold.now self.now }
    {
        self.added.has(cold)
    }

    /// Adds a proposal at the end. `NoMemory` changes nothing. (GOV of the formal specification)
    pub fn add(&mut self, p: Proposal) -> Result<(), NoMemory>
        requires absent { proposal_of p.id self.old ≡ None }
        requires fits { deposits_of self.old + p.deposit < 2 ^ 64 }
        requires ordered { IsMap voter_cmp p.votes }
        ensures ok { OnOk result (self.new ≡ self.old ++ p ∷ []) }
        ensures err { OnErr result (self.new ≡ self.old) }
    {
        let live = LiveProposal::of(self.alloc, p)?;
        self.append(live)
    }

    /// Keeps the proposals of these ids and returns the others, both in order of submission.
    /// After `NoMemory` the store has lost proposals: drop it. (EPOCH of the formal specification)
    pub fn retain_listed(&mut self, keep: &[ActionId]) -> Result<Vec<LiveProposal>, NoMemory>
        ensures kept { OnOk result (self.new ≡ those_of keep.now self.old) }
        ensures removed { IfOk result (λ r. r.items ≡ others_than keep.now self.old) }
    {
        let alloc = self.alloc;
        let seed = *self.proposals.hasher();
        let keep = set_of(alloc, keep)?;
        let old = mem::replace(self, ProposalStore::new(alloc, seed));
        self.refill(old.into_proposals(), &keep)
    }

    /// Keeps the first `n` proposals in order of submission. It takes no memory.
    /// It visits only the proposals that leave.
    pub fn keep_first(&mut self, n: u64)
        ensures { self.new ≡ take n self.old }
    {
        for _ in n..self.len() {
            self.drop_last();
        }
    }

    // Removes the last proposal with its votes.
    fn drop_last(&mut self)
        ensures { self.new ≡ all_but_last self.old }
    {
        let Some((_, p)) = self.proposals.pop() else {
            return;
        };
        p.forget_votes(&mut self.voted);
        self.families.forget_last(&p);
        self.added.lower(new_members(p.action()));
        self.deposits -= p.deposit();
    }

    // The proposals, each at its id.
    fn into_proposals(self) -> IndexMap<ActionId, LiveProposal, HashSeed>
        ensures proposals { values_of result.entries ≡ self }
        ensures distinct { IsDistinct same_action (ids_of self) }
        ensures fit { deposits_of self < 2 ^ 64 }
        ensures ordered { AllOrdered self }
    {
        let ProposalStore {
            alloc: _alloc,
            proposals,
            families: _families,
            voted: _voted,
            added: _added,
            deposits: _deposits,
        } = self;
        proposals
    }

    /// Sets the vote of a voter on a proposal; without such a proposal nothing changes.
    /// `NoMemory` changes nothing. (GOV of the formal specification)
    pub fn vote(&mut self, id: &ActionId, v: Voter, vote: Vote) -> Result<(), NoMemory>
        ensures ok { OnOk result (self.new ≡ with_change id.now (with_vote v vote) self.old) }
        ensures err { OnErr result (self.new ≡ self.old) }
    {
        match self.proposals.get_mut(id) {
            Some(p) => p.vote(&mut self.voted, v, vote),
            None => Ok(()),
        }
    }

    /// Removes the vote of a voter on a proposal, if there is one.
    pub fn unvote(&mut self, id: &ActionId, v: &Voter)
        ensures { self.new ≡ with_change id.now (without_vote v.now) self.old }
    {
        drop_at(&mut self.proposals, id, v);
        self.voted.forget_vote(v, id);
    }

    /// The ids of the proposals on which a DRep has a vote, each once, without a scan.
    /// Their order means nothing.
    pub fn voted_on(&self, drep: &Credential) -> &[ActionId]
        ensures voted { (id : ActionId) → has_member action_id_cmp result.now id ≡ is_voted_on drep.now id self.now }
        ensures once { IsDistinct same_action result.now }
    {
        self.voted.of(drep)
    }

    /// Removes the votes of a DRep from all proposals.
    pub fn clear_votes(&mut self, drep: &Credential)
        ensures { self.new ≡ map (without_vote (Drep drep.now)) self.old }
    {
        self.clear_one(drep);
    }

    /// Removes the votes of DReps from all proposals; it visits only those with such votes.
    pub fn clear_votes_of(&mut self, dreps: &[Credential])
        ensures { self.new ≡ map (without_votes_of dreps.now) self.old }
    {
        for drep in dreps {
            self.clear_one(drep);
        }
    }

    // Removes the votes of a DRep from the proposals in its notes.
    fn clear_one(&mut self, drep: &Credential)
        ensures cleared { self.new ≡ map (without_vote (Drep drep.now)) self.old }
        ensures ordered { AllOrdered self.old }
    {
        let ids = self.voted.take(drep);
        drop_from(&mut self.proposals, ids.as_slice(), &Voter::Drep(*drep));
    }

    // Adds a proposal at the end. `NoMemory` changes nothing.
    fn append(&mut self, p: LiveProposal) -> Result<(), NoMemory>
        requires absent { proposal_of p.id self.old ≡ None }
        requires fits { deposits_of self.old + p.deposit < 2 ^ 64 }
        requires ordered { IsMap voter_cmp p.votes }
        ensures ok { OnOk result (self.new ≡ self.old ++ p ∷ []) }
        ensures err { OnErr result (self.new ≡ self.old) }
    {
        self.proposals.reserve(1)?;
        note_beside(&p, &mut self.families, &mut self.voted, &mut self.added)?;
        self.deposits += p.deposit();
        self.proposals.insert(p.id(), p)?;
        Ok(())
    }

    // Adds the proposals to keep to an empty store, and returns the others.
    fn refill(
        &mut self,
        proposals: IndexMap<ActionId, LiveProposal, HashSeed>,
        keep: &BTreeSet<ActionId>,
    ) -> Result<Vec<LiveProposal>, NoMemory>
        requires empty { self.old ≡ [] }
        requires distinct { IsDistinct same_action (ids_of (values_of proposals.entries)) }
        requires fit { deposits_of (values_of proposals.entries) < 2 ^ 64 }
        requires ordered { AllOrdered (values_of proposals.entries) }
        ensures kept { OnOk result (self.new ≡ filter (is_in keep.now.keys) (values_of proposals.entries)) }
        ensures removed { IfOk result (λ r. r.items ≡ filter (is_out keep.now.keys) (values_of proposals.entries)) }
    {
        let mut removed = Vec::new(self.alloc);
        for (_, p) in proposals {
            if keep.contains(&p.id()) {
                self.append(p)?;
            } else {
                removed.push(p)?;
            }
        }
        Ok(removed)
    }
}

// Updates children, notes and counts for a new proposal. `NoMemory` changes none of them.
fn note_beside(
    p: &LiveProposal,
    families: &mut Families,
    voted: &mut VotedOn,
    added: &mut AddedKeys,
) -> Result<(), NoMemory>
    requires ordered { IsMap voter_cmp p.now.votes }
    requires fresh { (c : Credential) → is_noted voted.old c p.now.id ≡ false }
    requires once { AreOnce voted.old }
    ensures children { OnOk result ((q : Parent) →
        ids_at families.new q ≡ ids_at families.old q ++ children_of q.purpose q.previous (p.now ∷ [])) }
    ensures notes { OnOk result ((c : Credential) → noted_of voted.new c ≡
        (if has_vote c p.now then noted_of voted.old c ++ p.now.id ∷ [] else noted_of voted.old c)) }
    ensures counts { OnOk result ((c : Credential) →
        count_at added.new c ≡ count_at added.old c + count_among c (members_added p.now.action)) }
    ensures no_child { OnErr result (families.new ≡ families.old) }
    ensures no_note { OnErr result ((c : Credential) → noted_of voted.new c ≡ noted_of voted.old c) }
    ensures no_count { OnErr result ((c : Credential) → count_at added.new c ≡ count_at added.old c) }
    ensures apart { AreOnce voted.new }
{
    let add = new_members(p.action());
    added.raise(add)?;
    let Ok(()) = p.note_votes(voted) else {
        added.lower(add);
        return Err(NoMemory);
    };
    let Ok(()) = families.note(p) else {
        p.forget_votes(voted);
        added.lower(add);
        return Err(NoMemory);
    };
    Ok(())
}

// Removes the vote of a voter from the proposals of these ids.
fn drop_from(
    proposals: &mut IndexMap<ActionId, LiveProposal, HashSeed>,
    ids: &[ActionId],
    v: &Voter,
)
    requires keyed { AllKeyed proposals.old.entries }
    requires distinct { IsDistinct same_action (ids_of (values_of proposals.old.entries)) }
    requires ordered { AllOrdered (values_of proposals.old.entries) }
    ensures { proposals.new.entries ≡ each (dropping v.now ids.now) proposals.old.entries }
{
    for id in ids {
        drop_at(proposals, id, v);
    }
}

// Removes the vote of a voter from the proposal of an id, if there are both.
fn drop_at(proposals: &mut IndexMap<ActionId, LiveProposal, HashSeed>, id: &ActionId, v: &Voter)
    requires keyed { AllKeyed proposals.old.entries }
    requires distinct { IsDistinct same_action (ids_of (values_of proposals.old.entries)) }
    ensures { proposals.new.entries ≡ each (changing id.now (without_vote v.now)) proposals.old.entries }
{
    if let Some(p) = proposals.get_mut(id) {
        p.drop_vote(v);
    }
}
