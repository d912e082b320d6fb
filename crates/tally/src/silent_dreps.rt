ghost use Rattle.std.specs.Prelude.{◌≡◌, ◌^◌, ◌<◌, IsTrue, ◌↔◌, IfNone, IfSome, sum_by};
ghost use Rattle.drep_pulser.specs.Facts.{IsCountedOf};
ghost use Rattle.gov_actions.specs.declared.tally.Role.TheVariants.{Drep as dreps};
ghost use Rattle.gov_ids.specs.Orders.{credential_cmp, voter_cmp};
ghost use Rattle.gov_model.specs.Sides.{vote_count};
ghost use Rattle.gov_model.specs.Snapshot.{Snapshot};
ghost use Rattle.maps.specs.Maps.{IsMap, value_at};
ghost use Rattle.snapshots.specs.Frozen.{frozen_copy_of};
ghost use Rattle.tally.specs.Silent.{AreSilentDreps, drep_weight, silent_dreps};
ghost use Rattle.tally.specs.Stakes.{drep_stakes};

use crate::dreps::drep_count;
use crate::sides::{no_confidence_side, with_side, with_vote};
use drep_pulser::Counted;
use gov_actions::{Proposal, Vote};
use gov_ids::{Credential, Drep, Voter};
use snapshots::Frozen;

// The total of the DReps where none has voted, in lovelace; none if and only if they are unordered.
pub(crate) fn silent_dreps(f: &Frozen, c: &Counted) -> Option<u64>
    requires fits { drep_stakes f.now c.now < 2 ^ 64 }
    ensures silent { IfSome result (AreSilentDreps f.now c.now) }
    ensures walked { IfNone result (IsMap credential_cmp f.now.dreps → ⊥) }
{
    if is_in_order(f.dreps.as_slice()) {
        Some(silent_total(f, c))
    } else {
        None
    }
}

// Yes and total of the DReps on a frozen proposal, from the total where none has voted;
// without that total, one by one.
pub(crate) fn drep_count_from(
    f: &Frozen,
    c: &Counted,
    silent: Option<u64>,
    a: &Proposal,
) -> (u64, u64)
    requires fits { drep_stakes f.now c.now < 2 ^ 64 }
    requires in_order { IsMap voter_cmp a.now.votes }
    requires silent { IfSome silent (AreSilentDreps f.now c.now) }
    ensures { (s : Snapshot) → f.now ≡ frozen_copy_of s → IsCountedOf s c.now → result ≡ vote_count dreps s a.now }
{
    match silent {
        Some(total) => drep_count_by_votes(f, c, total, a),
        None => drep_count(f, c, a),
    }
}

// Yes and total of the DReps, from that total and the votes.
fn drep_count_by_votes(f: &Frozen, c: &Counted, silent: u64, a: &Proposal) -> (u64, u64)
    requires fits { drep_stakes f.now c.now < 2 ^ 64 }
    requires in_order { IsMap voter_cmp a.now.votes }
    requires silent { AreSilentDreps f.now c.now silent }
    ensures { (s : Snapshot) → f.now ≡ frozen_copy_of s → IsCountedOf s c.now → result ≡ vote_count dreps s a.now }
{
    let mut count = (0, silent);
    for (voter, vote) in a.votes.as_slice() {
        count = with_vote(count, silent_drep(f, c, voter), *vote);
    }
    with_side(
        count,
        c.stake(&Drep::NoConfidence),
        no_confidence_side(&a.action),
    )
}

// The weight of a voter that is a frozen DRep, and its side where it does not vote.
fn silent_drep(f: &Frozen, c: &Counted, voter: &Voter) -> Option<(u64, Vote)>
    requires { IsMap credential_cmp f.now.dreps }
    ensures { result ≡ value_at voter_cmp (silent_dreps f.now c.now) voter.now }
{
    let Voter::Drep(drep) = voter else {
        return None;
    };
    let expiry = expiry_in(f.dreps.as_slice(), drep)?;
    Some((drep_weight(f, c, drep, expiry), Vote::No))
}

// The sum of the frozen DReps' weights.
fn silent_total(f: &Frozen, c: &Counted) -> u64
    requires { drep_stakes f.now c.now < 2 ^ 64 }
    ensures { result ≡ sum_by (drep_weight f.now c.now) f.now.dreps }
{
    let mut total = 0;
    for (drep, expiry) in f.dreps.as_slice() {
        total += drep_weight(f, c, drep, *expiry);
    }
    total
}

// The weight of a frozen DRep: its stake, 0 where its expiry has passed.
fn drep_weight(f: &Frozen, c: &Counted, drep: &Credential, expiry: u64) -> u64
    ensures { result ≡ drep_weight f.now c.now (drep.now, expiry) }
{
    if f.epoch <= expiry {
        c.stake(&Drep::Registered(*drep))
    } else {
        0
    }
}

// The expiry of one of these DReps, which are in order.
fn expiry_in(dreps: &[(Credential, u64)], drep: &Credential) -> Option<u64>
    requires { IsMap credential_cmp dreps.now }
    ensures { result ≡ value_at credential_cmp dreps.now drep.now }
{
    match dreps.binary_search_by_key(drep, |entry| entry.0) {
        Ok(i) => Some(dreps[i].1),
        Err(_) => None,
    }
}

// Whether each DRep comes before the next.
fn is_in_order(dreps: &[(Credential, u64)]) -> bool
    ensures { IsTrue result ↔ IsMap credential_cmp dreps.now }
{
    dreps.is_sorted_by(|(drep, _), (next, _)| drep < next)
}
