ghost use Rattle.std.specs.Prelude.{◌≡◌, ◌^◌, ◌<◌};
ghost use Rattle.gov_actions.specs.declared.tally.Role.TheVariants.{Pool as pools};
ghost use Rattle.gov_ids.specs.Orders.{voter_cmp};
ghost use Rattle.gov_model.specs.Sides.{default_side, silent_pool_side, vote_count};
ghost use Rattle.gov_model.specs.Snapshot.{Snapshot};
ghost use Rattle.maps.specs.Maps.{IsMap};
ghost use Rattle.snapshots.specs.Frozen.{frozen_copy_of};
ghost use Rattle.tally.specs.Stakes.{pool_stakes};

use crate::sides::{no_confidence_side, vote_of, with_side};
use gov_actions::{Action, Proposal, Vote};
use gov_ids::Voter;
use snapshots::{DefaultVote, Frozen};

/// Yes and total of the pools of mark on a frozen proposal, in lovelace.
/// A pool that did not vote says No to a hard fork, and otherwise follows its default vote.
/// (CIP-1694, Ratification; RATIFY of the formal specification)
pub fn pool_count(f: &Frozen, a: &Proposal) -> (u64, u64)
    requires fits { pool_stakes f.now < 2 ^ 64 }
    requires in_order { IsMap voter_cmp a.now.votes }
    ensures { (s : Snapshot) → f.now ≡ frozen_copy_of s → result ≡ vote_count pools s a.now }
{
    let mut count = (0, 0);
    for p in f.pools.as_slice() {
        let silent = silent_side(p.default_vote, &a.action);
        let vote = vote_of(a, &Voter::Pool(p.pool)).unwrap_or(silent);
        count = with_side(count, p.stake, vote);
    }
    count
}

// The side of a pool that did not vote.
pub(crate) fn silent_side(default: DefaultVote, a: &Action) -> Vote
    ensures { result ≡ silent_pool_side default a.now }
{
    match a {
        Action::HardForkInitiation { .. } => Vote::No,
        _ => default_side(default, a),
    }
}

// The side of a default vote on an action that is no hard fork.
fn default_side(default: DefaultVote, a: &Action) -> Vote
    ensures { result ≡ default_side default a.now }
{
    match default {
        DefaultVote::No => Vote::No,
        DefaultVote::Abstain => Vote::Abstain,
        DefaultVote::NoConfidence => no_confidence_side(a),
    }
}
