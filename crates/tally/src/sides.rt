ghost use Rattle.std.specs.Prelude.{◌≡◌, ◌+◌, ◌^◌, ◌<◌, ◌≤◌, IfSome};
ghost use Rattle.gov_ids.specs.Orders.{voter_cmp};
ghost use Rattle.gov_model.specs.Sides.{no_confidence_side, vote_of};
ghost use Rattle.maps.specs.Maps.{IsMap};
ghost use Rattle.tally.specs.Adding.{IsPartOf, total_of, with_side, with_vote, without_side, yes_of};

use gov_actions::{Action, Proposal, Vote};
use gov_ids::Voter;

// Yes and total with one more side.
pub(crate) fn with_side(count: (u64, u64), weight: u64, vote: Vote) -> (u64, u64)
    requires part { count.0 ≤ count.1 }
    requires fits { count.1 + weight < 2 ^ 64 }
    ensures { result ≡ with_side count weight vote }
{
    let (yes, total) = count;
    match vote {
        Vote::Yes => (yes + weight, total + weight),
        Vote::No => (yes, total + weight),
        Vote::Abstain => count,
    }
}

// Yes and total without a side that they contain.
fn without_side(count: (u64, u64), weight: u64, vote: Vote) -> (u64, u64)
    requires yes { yes_of (weight, vote) ≤ count.0 }
    requires total { total_of (weight, vote) ≤ count.1 }
    ensures { result ≡ without_side count weight vote }
{
    let (yes, total) = count;
    match vote {
        Vote::Yes => (yes - weight, total - weight),
        Vote::No => (yes, total - weight),
        Vote::Abstain => (yes, total),
    }
}

// Yes and total after a vote replaces its voter's side; no change where the voter has no side.
pub(crate) fn with_vote(count: (u64, u64), side: Option<(u64, Vote)>, vote: Vote) -> (u64, u64)
    requires { IfSome side (λ s. IsPartOf count s) }
    ensures { result ≡ with_vote count side vote }
{
    match side {
        Some((weight, silent)) => { with_side(without_side(count, weight, silent), weight, vote) }
        None => count,
    }
}

// The vote of a voter on a proposal, none where it did not vote.
pub(crate) fn vote_of(a: &Proposal, voter: &Voter) -> Option<Vote>
    requires { IsMap voter_cmp a.now.votes }
    ensures { result ≡ vote_of a.now voter.now }
{
    let votes = a.votes.as_slice();
    match votes.binary_search_by_key(voter, |vote| vote.0) {
        Ok(i) => Some(votes[i].1),
        Err(_) => None,
    }
}

// The side of always-no-confidence on an action.
pub(crate) fn no_confidence_side(a: &Action) -> Vote
    ensures { result ≡ no_confidence_side a.now }
{
    match a {
        Action::NoConfidence { .. } => Vote::Yes,
        _ => Vote::No,
    }
}
