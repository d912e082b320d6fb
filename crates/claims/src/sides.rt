//! The side of each voter on a proposal.
ghost use Rattle.std.specs.Prelude.{◌≡◌};
ghost use Rattle.gov_ids.specs.Orders.{voter_cmp};
ghost use Rattle.gov_model.specs.Sides.{default_side, no_confidence_side, silent_pool_side, vote_of};
ghost use Rattle.maps.specs.Maps.{IsMap};
ghost use Rattle.tally.specs.Active.{active_key};

use gov_actions::{Action, HotState, Proposal, Vote};
use gov_ids::{Credential, Voter};
use snapshots::{DefaultVote, Frozen};

// The vote of a voter on a proposal, none where it did not vote.
pub(crate) fn vote_of(a: &Proposal, voter: &Voter) -> Option<Vote>
    requires { IsMap voter_cmp a.now.votes }
    ensures { result ≡ vote_of a.now voter.now }
{
    let votes = a.votes.as_slice();
    match votes.binary_search_by_key(voter, |vote| vote.0) {
        Ok(i) => Some(votes[i].1),
        Err(_) => None,
    }
}

// The hot key of an active member: its term is not over, it has a hot key and did not resign.
pub(crate) fn active_key(f: &Frozen, member: &(Credential, u64)) -> Option<Credential>
    ensures { result ≡ active_key f.now.epoch f.now.hot member.now }
{
    let (cold, term) = member;
    if *term < f.epoch {
        return None;
    }
    match f.hot.get(cold)? {
        HotState::Hot(key) => Some(key),
        HotState::Resigned => None,
    }
}

// The side of always-no-confidence on an action.
pub(crate) fn no_confidence_side(a: &Action) -> Vote
    ensures { result ≡ no_confidence_side a.now }
{
    match a {
        Action::NoConfidence { .. } => Vote::Yes,
        _ => Vote::No,
    }
}

// The side of a pool that did not vote.
pub(crate) fn silent_side(default: DefaultVote, a: &Action) -> Vote
    ensures { result ≡ silent_pool_side default a.now }
{
    match a {
        Action::HardForkInitiation { .. } => Vote::No,
        _ => default_side(default, a),
    }
}

// The side of a default vote on an action that is no hard fork.
fn default_side(default: DefaultVote, a: &Action) -> Vote
    ensures { result ≡ default_side default a.now }
{
    match default {
        DefaultVote::No => Vote::No,
        DefaultVote::Abstain => Vote::Abstain,
        DefaultVote::NoConfidence => no_confidence_side(a),
    }
}
