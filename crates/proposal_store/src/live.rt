ghost use Rattle.std.specs.Prelude.{◌≡◌, ◌++◌, [], ◌∷◌, false, IfOk, OnOk, OnErr, if◌then◌else◌};
ghost use Rattle.gov_ids.specs.declared.ActionId.{ActionId};
ghost use Rattle.gov_ids.specs.declared.Credential.{Credential};
ghost use Rattle.gov_ids.specs.Orders.{action_id_cmp, voter_cmp};
ghost use Rattle.gov_ids.specs.Same.{same_action};
ghost use Rattle.gov_model.specs.Proposals.{with_vote, without_vote};
ghost use Rattle.maps.specs.Maps.{IsMap, value_at, with_values, without_member};
ghost use Rattle.proposal_store.specs.Voted.{AreOnce, has_vote, is_noted, noted_of};

use crate::voted::VotedOn;
use gov_actions::{Action, Proposal, Vote};
use gov_ids::{Account, ActionId, Voter};
use listed::Listed;
use no_memory::NoMemory;
use std::alloc::Global;
use std::collections::BTreeMap;
use std::collections::btree_map::Iter;
use std::marker::Model;

/// A live proposal with its votes in a tree by voter. Contracts see the proposal.
/// (GovActionState of the formal specification)
pub struct LiveProposal {
    // the proposal, without its votes: its own list of votes is not read
    proposal: Proposal,
    votes: BTreeMap<Voter, Vote>,
}

// By hand, so that it is proved once: each crate above would prove a derived one part by part.
impl Drop for LiveProposal {
    fn drop(self) {
        let LiveProposal {
            proposal: _proposal,
            votes: _votes,
        } = self;
    }
}

impl Model for LiveProposal {
    ghost use Rattle.gov_actions.specs.declared.action.Proposal.{Proposal};

    ghost Value = { Proposal };

    ghost view = { λ a. record a.proposal { votes = a.votes.entries } };
}

impl LiveProposal {
    // Puts the votes of a proposal into a tree.
    pub(crate) fn of(alloc: Global, p: Proposal) -> Result<LiveProposal, NoMemory>
        requires ordered { IsMap voter_cmp p.votes }
        ensures { IfOk result (λ live. live ≡ p) }
    {
        let votes = tree_of(alloc, p.votes.as_slice())?;
        Ok(LiveProposal { proposal: p, votes })
    }

    /// The transaction that proposed it, and the index there.
    /// (GovActionState of the formal specification)
    pub fn id(&self) -> ActionId
        ensures { result ≡ self.now.id }
    {
        self.proposal.id
    }

    /// What it asks for. (GovActionState of the formal specification)
    pub fn action(&self) -> &Action
        ensures { result.now ≡ self.now.action }
    {
        &self.proposal.action
    }

    /// What it paid, in lovelace. (GovActionState of the formal specification)
    pub fn deposit(&self) -> u64
        ensures { result ≡ self.now.deposit }
    {
        self.proposal.deposit
    }

    /// The account to which the deposit returns. (GovActionState of the formal specification)
    pub fn account(&self) -> Account
        ensures { result ≡ self.now.account }
    {
        self.proposal.account
    }

    /// The last epoch in which it may be voted on. (GovActionState of the formal specification)
    pub fn expires_after(&self) -> u64
        ensures { result ≡ self.now.expires_after }
    {
        self.proposal.expires_after
    }

    /// The last vote of a voter, found in the tree. (GovActionState of the formal specification)
    pub fn vote_of(&self, v: &Voter) -> Option<Vote>
        ensures { result ≡ value_at voter_cmp self.now.votes v.now }
    {
        self.votes.get(v).copied()
    }

    /// The votes in order of voter. It takes no memory.
    /// (GovActionState of the formal specification)
    pub fn votes(&self) -> Iter<'_, Voter, Vote>
        ensures { result ≡ self.now.votes }
    {
        self.votes.iter()
    }

    /// A copy as a plain proposal, whose votes are a list in order of voter.
    /// (GovActionState of the formal specification)
    pub fn copied(&self, alloc: Global) -> Result<Proposal, NoMemory>
        ensures { IfOk result (λ copy. copy ≡ self.now) }
    {
        let action = self.proposal.action.copied(alloc)?;
        let votes = list_of(alloc, &self.votes)?;
        let Proposal {
            id,
            deposit,
            account,
            expires_after,
            ..
        } = &self.proposal;
        Ok(Proposal {
            id: *id,
            action,
            deposit: *deposit,
            account: *account,
            expires_after: *expires_after,
            votes,
        })
    }

    // Notes the votes of DReps; none is noted before. `NoMemory` changes no note.
    pub(crate) fn note_votes(&self, voted: &mut VotedOn) -> Result<(), NoMemory>
        requires ordered { IsMap voter_cmp self.now.votes }
        requires fresh { (c : Credential) → is_noted voted.old c self.now.id ≡ false }
        requires once { AreOnce voted.old }
        ensures ok { OnOk result ((c : Credential) → noted_of voted.new c ≡
            (if has_vote c self.now then noted_of voted.old c ++ self.now.id ∷ [] else noted_of voted.old c)) }
        ensures err { OnErr result ((c : Credential) → noted_of voted.new c ≡ noted_of voted.old c) }
        ensures apart { AreOnce voted.new }
    {
        for (v, _) in &self.votes {
            let Ok(()) = voted.note_vote(v, self.proposal.id) else {
                self.forget_votes(voted);
                return Err(NoMemory);
            };
        }
        Ok(())
    }

    // Removes the notes of its votes. It takes no memory.
    pub(crate) fn forget_votes(&self, voted: &mut VotedOn)
        requires { AreOnce voted.old }
        ensures without { (c : Credential) → noted_of voted.new c ≡ (if has_vote c self.now
            then without_member action_id_cmp self.now.id (noted_of voted.old c) else noted_of voted.old c) }
        ensures once { AreOnce voted.new }
    {
        for (v, _) in &self.votes {
            voted.forget_vote(v, &self.proposal.id);
        }
    }

    // Sets the vote of a voter and its note. `NoMemory` changes no vote and no note.
    pub(crate) fn vote(&mut self, voted: &mut VotedOn, v: Voter, vote: Vote) -> Result<(), NoMemory>
        requires noted { (c : Credential) → is_noted voted.old c self.old.id ≡ has_vote c self.old }
        requires once { AreOnce voted.old }
        ensures ok { OnOk result (self.new ≡ with_vote v vote self.old) }
        ensures err { OnErr result (self.new ≡ self.old) }
        ensures notes { (c : Credential) (id : ActionId) → is_noted voted.new c id ≡
            (if same_action self.old.id id then has_vote c self.new else is_noted voted.old c id) }
        ensures apart { AreOnce voted.new }
    {
        if self.vote_of(&v).is_some() {
            return self.put_vote(v, vote);
        }
        voted.note_vote(&v, self.proposal.id)?;
        let Ok(()) = self.put_vote(v, vote) else {
            voted.forget_vote(&v, &self.proposal.id);
            return Err(NoMemory);
        };
        Ok(())
    }

    // Sets the vote of a voter. `NoMemory` changes nothing.
    fn put_vote(&mut self, v: Voter, vote: Vote) -> Result<(), NoMemory>
        ensures ok { OnOk result (self.new ≡ with_vote v vote self.old) }
        ensures err { OnErr result (self.new ≡ self.old) }
    {
        self.votes.insert(v, vote)?;
        Ok(())
    }

    // Removes the vote of a voter, if there is one.
    pub(crate) fn drop_vote(&mut self, v: &Voter)
        ensures { self.new ≡ without_vote v.now self.old }
    {
        self.votes.remove(v);
    }
}

// The votes as a tree; a later vote of a voter replaces an earlier one.
fn tree_of(alloc: Global, votes: &[(Voter, Vote)]) -> Result<BTreeMap<Voter, Vote>, NoMemory>
    ensures { IfOk result (λ tree. tree.entries ≡ with_values voter_cmp votes.now []) }
{
    let mut tree = BTreeMap::new(alloc);
    for (v, vote) in votes {
        tree.insert(*v, *vote)?;
    }
    Ok(tree)
}

// The votes of a tree, in order of voter.
fn list_of(alloc: Global, votes: &BTreeMap<Voter, Vote>) -> Result<Listed<(Voter, Vote)>, NoMemory>
    ensures { IfOk result (λ list. list ≡ votes.now.entries) }
{
    let list = votes.iter().map(|(v, vote)| (*v, *vote)).collect(alloc)?;
    Ok(Listed::from_vec(list))
}
