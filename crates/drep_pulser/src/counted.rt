ghost use Rattle.std.specs.Prelude.{◌≡◌, IfOk};
ghost use Rattle.snapshots.specs.of_gov_model.Snapshot.{Snapshot};
ghost use Rattle.snapshots.specs.of_gov_model.Stake.{drep_stake};
ghost use Rattle.drep_pulser.specs.Count.{sum_for};
ghost use Rattle.drep_pulser.specs.Facts.{IsCountedOf};

use crate::sums::Sums;
use coin_frac::NoMemory;
use gov_ids::Drep;
use std::alloc::Global;
use std::marker::Model;

/// A count that has ended. (the DRep pulser of cardano-ledger)
#[derive(Debug, Drop)]
pub struct Counted {
    pub(crate) total: u64,
    pub(crate) sums: Sums,
}

impl Model for Counted {
    ghost use Rattle.drep_pulser.specs.Count.{Ended};

    ghost Value = { Ended };

    ghost view = { λ a. record { total = a.total; sums = a.sums } };
}

impl Counted {
    /// A copy.
    pub fn copied(&self, alloc: Global) -> Result<Counted, NoMemory>
        ensures { IfOk result (λ copy. copy ≡ self.now) }
    {
        Ok(Counted {
            total: self.total,
            sums: self.sums.copied(alloc)?,
        })
    }

    /// The stake of a DRep in lovelace, 0 for one that was not registered.
    /// (the DRep distribution of cardano-ledger's DRep pulser)
    pub fn stake(&self, d: &Drep) -> u64
        ensures sum { result ≡ sum_for self.now.sums d.now }
        ensures stake { (f : Snapshot) → IsCountedOf f self.now → result ≡ drep_stake f d.now }
    {
        self.sums.get(d)
    }

    /// How many entries were visited.
    pub fn total(&self) -> u64
        ensures { result ≡ self.now.total }
    {
        self.total
    }
}
