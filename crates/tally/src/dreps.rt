ghost use Rattle.std.specs.Prelude.{◌≡◌, ◌^◌, ◌<◌};
ghost use Rattle.drep_pulser.specs.Facts.{IsCountedOf};
ghost use Rattle.gov_actions.specs.declared.tally.Role.TheVariants.{Drep as dreps};
ghost use Rattle.gov_ids.specs.Orders.{voter_cmp};
ghost use Rattle.gov_model.specs.Sides.{vote_count};
ghost use Rattle.gov_model.specs.Snapshot.{Snapshot};
ghost use Rattle.maps.specs.Maps.{IsMap};
ghost use Rattle.snapshots.specs.Frozen.{frozen_copy_of};
ghost use Rattle.tally.specs.Stakes.{drep_stakes};

use crate::sides::{no_confidence_side, vote_of, with_side};
use drep_pulser::Counted;
use gov_actions::{Proposal, Vote};
use gov_ids::{Drep, Voter};
use snapshots::Frozen;

/// Yes and total of the unexpired DReps on a frozen proposal, in lovelace; no vote counts as No.
/// Always-abstain is in neither. Always-no-confidence says Yes to a motion of no confidence,
/// and No to all else. (CIP-1694, Ratification; RATIFY of the formal specification)
pub fn drep_count(f: &Frozen, c: &Counted, a: &Proposal) -> (u64, u64)
    requires fits { drep_stakes f.now c.now < 2 ^ 64 }
    requires in_order { IsMap voter_cmp a.now.votes }
    ensures { (s : Snapshot) → f.now ≡ frozen_copy_of s → IsCountedOf s c.now → result ≡ vote_count dreps s a.now }
{
    let mut count = (0, 0);
    for (drep, expiry) in f.dreps.as_slice() {
        if f.epoch <= *expiry {
            let vote = vote_of(a, &Voter::Drep(*drep)).unwrap_or(Vote::No);
            count = with_side(count, c.stake(&Drep::Registered(*drep)), vote);
        }
    }
    with_side(
        count,
        c.stake(&Drep::NoConfidence),
        no_confidence_side(&a.action),
    )
}
