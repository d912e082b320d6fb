ghost use Rattle.std.specs.Prelude.{◌≡◌, ◌+◌, ◌^◌, ◌<◌, IfOk, length};
ghost use Rattle.gov_ids.specs.Orders.{drep_cmp};
ghost use Rattle.maps.specs.Maps.{changed_at};
ghost use Rattle.drep_pulser.specs.Count.{sum_for};
ghost use Rattle.drep_pulser.specs.Parts.{by_drep, no_part};

use crate::sums::Sums;
use coin_frac::NoMemory;
use gov_ids::Drep;
use std::alloc::Global;
use std::marker::Model;

/// The sums of one worker, in lovelace, in the order of the DReps of its count.
#[derive(Debug, Drop)]
pub struct Part {
    amounts: Vec<u64>,
}

impl Model for Part {
    ghost use Rattle.std.specs.Prelude.{ℕ, List};

    ghost Value = { List ℕ };

    ghost view = { λ a. a.amounts.items };
}

impl Part {
    // 0 for each DRep that has a sum.
    pub(crate) fn of(alloc: Global, sums: &Sums) -> Result<Part, NoMemory>
        ensures { IfOk result (λ part. part ≡ no_part sums.now) }
    {
        Ok(Part {
            amounts: sums.zeros(alloc)?,
        })
    }

    // Adds to the sum of a DRep, if it has one. It takes no memory.
    pub(crate) fn add(&mut self, sums: &Sums, d: &Drep, n: u64)
        requires length { length self.old ≡ length sums.now }
        requires fits { sum_for (by_drep sums.now self.old) d.now + n < 2 ^ 64 }
        ensures length { length self.new ≡ length self.old }
        ensures sums { by_drep sums.now self.new ≡ changed_at drep_cmp d.now (λ s. s + n) (by_drep sums.now self.old) }
    {
        if let Some(place) = sums.place(d) {
            self.amounts[place] += n;
        }
    }

    // The sums, in the order of DReps.
    pub(crate) fn as_slice(&self) -> &[u64]
        ensures { result.now ≡ self.now }
    {
        self.amounts.as_slice()
    }
}
