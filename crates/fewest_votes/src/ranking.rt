ghost use Rattle.std.specs.Prelude.{◌≡◌, IfOk, map};
ghost use Rattle.drep_pulser.specs.Facts.{IsCountedOf};
ghost use Rattle.fewest_votes.specs.Ranked.{drep_at, rank_of, ranked_by, ranked_of};
ghost use Rattle.gov_ids.specs.Orders.{voter_cmp};
ghost use Rattle.gov_model.specs.Snapshot.{Snapshot};
ghost use Rattle.maps.specs.Maps.{IsMap};
ghost use Rattle.shortfall_model.specs.Silent.{drep_count, short_of};
ghost use Rattle.snapshots.specs.Frozen.{frozen_copy_of};
ghost use Rattle.tally.specs.Counted.{ForSnapshot};

use crate::fronts::short_in;
use drep_pulser::Counted;
use gov_actions::{Proposal, Role};
use gov_ids::{Credential, Drep};
use no_memory::NoMemory;
use shortfall_model::Short;
use snapshots::Frozen;
use std::alloc::Global;
use std::cmp::Reverse;
use std::collections::BTreeSet;
use std::marker::Model;
use tally::need;

// The rank of a DRep: the greater stake first, and of equal ones the lower credential.
#[derive(Clone, Copy, PartialEq, Eq, PartialOrd, Ord)]
struct Rank {
    stake: Reverse<u64>,
    drep: Credential,
}

/// A frozen epoch's active DReps and their stakes in lovelace, made once for all proposals.
/// The greatest stake is first; equal ones are ordered by credential.
#[derive(Drop)]
pub struct Ranking {
    dreps: Vec<(Credential, u64)>,
}

impl Model for Ranking {
    ghost use Rattle.std.specs.Prelude.{ℕ, List};
    ghost use Rattle.gov_ids.specs.declared.Credential.{Credential};

    ghost Value = { List (Credential × ℕ) };

    ghost view = { λ a. a.dreps.items };
}

impl Ranking {
    /// The ranking of what is frozen, by its count.
    pub fn of(alloc: Global, f: &Frozen, c: &Counted) -> Result<Ranking, NoMemory>
        ensures { IfOk result (λ r. ForSnapshot f.now c.now (λ s. r ≡ ranked_of s)) }
    {
        let ranks = ranks(alloc, f, c)?;
        let dreps = dreps_of(alloc, &ranks)?;
        Ok(Ranking { dreps })
    }

    /// What a proposal lacks of the DReps' need, by their counts, if nothing is enacted before.
    /// The scan stops at the last chosen DRep. (Own; the needs are those of CIP-1694, Ratification)
    pub fn shortfall(
        &self,
        alloc: Global,
        f: &Frozen,
        count: (u64, u64),
        a: &Proposal,
    ) -> Result<Short, NoMemory>
        requires { IsMap voter_cmp a.now.votes }
        ensures { IfOk result (λ x. (s : Snapshot) → f.now ≡ frozen_copy_of s → self.now ≡ ranked_of s →
            count ≡ drep_count s a.now → x ≡ short_of s a.now) }
    {
        let need = need(f, &f.start, &a.action, Role::Drep);
        short_in(alloc, need, count, self.dreps.as_slice(), a)
    }
}

// The ranks of the active DReps.
fn ranks(alloc: Global, f: &Frozen, c: &Counted) -> Result<BTreeSet<Rank>, NoMemory>
    ensures { IfOk result (λ ranks. ranks.keys ≡ map rank_of (ranked_by f.now c.now)) }
{
    let mut ranks = BTreeSet::new(alloc);
    for (drep, expiry) in f.dreps.as_slice() {
        if f.epoch <= *expiry {
            let stake = c.stake(&Drep::Registered(*drep));
            ranks.insert(Rank {
                stake: Reverse(stake),
                drep: *drep,
            })?;
        }
    }
    Ok(ranks)
}

// The DReps of these ranks, each with its stake.
fn dreps_of(alloc: Global, ranks: &BTreeSet<Rank>) -> Result<Vec<(Credential, u64)>, NoMemory>
    ensures { IfOk result (λ dreps. dreps.items ≡ map drep_at ranks.now.keys) }
{
    let mut dreps = Vec::new(alloc);
    for rank in ranks {
        dreps.push((rank.drep, rank.stake.0))?;
    }
    Ok(dreps)
}
