ghost use Rattle.std.specs.Prelude.{◌≡◌, ◌^◌, ◌<◌, IsTrue, ◌↔◌, IfNone, IfSome};
ghost use Rattle.gov_actions.specs.declared.tally.Role.TheVariants.{Pool as pools};
ghost use Rattle.gov_ids.specs.Orders.{pool_cmp, voter_cmp};
ghost use Rattle.gov_model.specs.Sides.{vote_count};
ghost use Rattle.gov_model.specs.Snapshot.{Snapshot};
ghost use Rattle.maps.specs.Maps.{IsMap, value_at};
ghost use Rattle.snapshots.specs.Frozen.{frozen_copy_of};
ghost use Rattle.tally.specs.Silent.{AreSilentPools, by_id, count_of_standing, count_on, silent_pools};
ghost use Rattle.tally.specs.Stakes.{pool_stakes};

use crate::pools::{pool_count, silent_side};
use crate::sides::{with_side, with_vote};
use gov_actions::{Action, Proposal, Vote};
use gov_ids::{PoolId, Voter};
use snapshots::{Frozen, FrozenPool};

// Yes and total of the pools where none has voted, in lovelace, by the type of the action.
#[derive(Clone, Copy)]
pub(crate) struct SilentPools {
    hard_fork: (u64, u64),
    motion: (u64, u64),
    other: (u64, u64),
}

// The counts of the pools where none has voted; none if and only if the pools are unordered.
pub(crate) fn silent_pools(f: &Frozen) -> Option<SilentPools>
    requires fits { pool_stakes f.now < 2 ^ 64 }
    ensures silent { IfSome result (AreSilentPools f.now) }
    ensures walked { IfNone result (IsMap pool_cmp (by_id f.now.pools) → ⊥) }
{
    if !is_in_order(f.pools.as_slice()) {
        return None;
    }
    let hard_fork = Action::HardForkInitiation {
        previous: None,
        version: (0, 0),
    };
    let motion = Action::NoConfidence { previous: None };
    Some(SilentPools {
        hard_fork: silent_count(f, &hard_fork),
        motion: silent_count(f, &motion),
        other: silent_count(f, &Action::Info),
    })
}

// Yes and total of the pools on a frozen proposal, from the counts where none has voted;
// without these counts, one by one.
pub(crate) fn pool_count_from(f: &Frozen, silent: Option<SilentPools>, a: &Proposal) -> (u64, u64)
    requires fits { pool_stakes f.now < 2 ^ 64 }
    requires in_order { IsMap voter_cmp a.now.votes }
    requires silent { IfSome silent (AreSilentPools f.now) }
    ensures { (s : Snapshot) → f.now ≡ frozen_copy_of s → result ≡ vote_count pools s a.now }
{
    match silent {
        Some(silent) => pool_count_by_votes(f, silent, a),
        None => pool_count(f, a),
    }
}

// Yes and total of the pools, from these counts and the votes.
fn pool_count_by_votes(f: &Frozen, silent: SilentPools, a: &Proposal) -> (u64, u64)
    requires fits { pool_stakes f.now < 2 ^ 64 }
    requires in_order { IsMap voter_cmp a.now.votes }
    requires silent { AreSilentPools f.now silent }
    ensures { (s : Snapshot) → f.now ≡ frozen_copy_of s → result ≡ vote_count pools s a.now }
{
    let mut count = count_on(silent, &a.action);
    for (voter, vote) in a.votes.as_slice() {
        count = with_vote(count, silent_pool(f, voter, &a.action), *vote);
    }
    count
}

// The counts of the silent pools on an action.
fn count_on(silent: SilentPools, a: &Action) -> (u64, u64)
    ensures { result ≡ count_on silent a.now }
{
    match a {
        Action::HardForkInitiation { .. } => silent.hard_fork,
        Action::NoConfidence { .. } => silent.motion,
        _ => silent.other,
    }
}

// The stake of a voter that is a frozen pool, and its side where it does not vote.
fn silent_pool(f: &Frozen, voter: &Voter, a: &Action) -> Option<(u64, Vote)>
    requires { IsMap pool_cmp (by_id f.now.pools) }
    ensures { result ≡ value_at voter_cmp (silent_pools f.now a.now) voter.now }
{
    let Voter::Pool(pool) = voter else {
        return None;
    };
    let p = pool_in(f.pools.as_slice(), pool)?;
    Some((p.stake, silent_side(p.default_vote, a)))
}

// The counts of the pools on an action where none votes.
fn silent_count(f: &Frozen, a: &Action) -> (u64, u64)
    requires { pool_stakes f.now < 2 ^ 64 }
    ensures { result ≡ count_of_standing (silent_pools f.now a.now) }
{
    let mut count = (0, 0);
    for p in f.pools.as_slice() {
        count = with_side(count, p.stake, silent_side(p.default_vote, a));
    }
    count
}

// One of these pools, which are in order.
fn pool_in(pools: &[FrozenPool], pool: &PoolId) -> Option<FrozenPool>
    requires { IsMap pool_cmp (by_id pools.now) }
    ensures { result ≡ value_at pool_cmp (by_id pools.now) pool.now }
{
    match pools.binary_search_by_key(pool, |p| p.pool) {
        Ok(i) => Some(pools[i]),
        Err(_) => None,
    }
}

// Whether each pool comes before the next.
fn is_in_order(pools: &[FrozenPool]) -> bool
    ensures { IsTrue result ↔ IsMap pool_cmp (by_id pools.now) }
{
    pools.is_sorted_by(|p, next| p.pool < next.pool)
}
