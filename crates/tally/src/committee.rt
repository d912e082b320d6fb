ghost use Rattle.std.specs.Prelude.{◌≡◌, filter_map, length};
ghost use Rattle.gov_actions.specs.declared.tally.Role.TheVariants.{Committee as committee};
ghost use Rattle.gov_ids.specs.Orders.{voter_cmp};
ghost use Rattle.gov_model.specs.Sides.{members_of, vote_count};
ghost use Rattle.gov_model.specs.Snapshot.{Snapshot};
ghost use Rattle.maps.specs.Maps.{IsMap};
ghost use Rattle.snapshots.specs.Frozen.{frozen_copy_of};
ghost use Rattle.tally.specs.Active.{active_key};

use crate::sides::{vote_of, with_side};
use gov_actions::{Committee, HotState, Proposal, Vote};
use gov_ids::{Credential, Voter};
use snapshots::Frozen;

/// Yes and total of the committee on a frozen proposal, in members; no vote counts as No.
/// Each member with a hot key and a current term counts once, also where two share a hot key.
/// (CIP-1694, Ratification; RATIFY of the formal specification)
pub fn committee_count(f: &Frozen, a: &Proposal) -> (u64, u64)
    requires in_order { IsMap voter_cmp a.now.votes }
    ensures { (s : Snapshot) → f.now ≡ frozen_copy_of s → result ≡ vote_count committee s a.now }
{
    let mut count = (0, 0);
    for member in members_of(&f.start.committee) {
        if let Some(key) = active_key(f, member) {
            let vote = vote_of(a, &Voter::Committee(key)).unwrap_or(Vote::No);
            count = with_side(count, 1, vote);
        }
    }
    count
}

// How many of these members are active.
pub(crate) fn active_members(f: &Frozen, members: &[(Credential, u64)]) -> u64
    ensures { result ≡ length (filter_map (active_key f.now.epoch f.now.hot) members.now) }
{
    let mut active = 0;
    for member in members {
        if active_key(f, member).is_some() {
            active += 1;
        }
    }
    active
}

// The members of a committee, none where there is no committee.
fn members_of(committee: &Option<Committee>) -> &[(Credential, u64)]
    ensures { result.now ≡ members_of committee.now }
{
    match committee {
        Some(committee) => committee.members.as_slice(),
        None => &[],
    }
}

// The hot key of an active member: its term is not over, it has a hot key and did not resign.
fn active_key(f: &Frozen, member: &(Credential, u64)) -> Option<Credential>
    ensures { result ≡ active_key f.now.epoch f.now.hot member.now }
{
    let (cold, term) = member;
    if *term < f.epoch {
        return None;
    }
    match f.hot.get(cold)? {
        HotState::Hot(key) => Some(key),
        HotState::Resigned => None,
    }
}
