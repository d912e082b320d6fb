ghost use Rattle.std.specs.Prelude.{◌≡◌, ◌+◌, ◌^◌, ◌<◌, None, length, map, IfSome, IfNone, IfOk};
ghost use Rattle.gov_ids.specs.declared.Drep.{Drep};
ghost use Rattle.gov_ids.specs.declared.Drep.TheVariants.{Registered};
ghost use Rattle.gov_ids.specs.Orders.{drep_cmp};
ghost use Rattle.maps.specs.Maps.{IsMap, value_at, changed_at};
ghost use Rattle.drep_pulser.specs.Count.{sum_for, no_sums};
ghost use Rattle.drep_pulser.specs.Parts.{by_drep, no_part, with_part};
ghost use Rattle.drep_pulser.specs.Places.{IsPlaceOf};

use crate::hints::Hints;
use coin_frac::NoMemory;
use drep_book::DrepBook;
use gov_ids::{Credential, Drep};
use std::alloc::Global;
use std::marker::Model;

// The sum of each DRep, in lovelace, in the order of DReps. It finds one by hint or binary search.
#[derive(Debug, Drop)]
pub(crate) struct Sums {
    amounts: Vec<(Drep, u64)>,
    hints: Hints,
}

impl Model for Sums {
    ghost use Rattle.std.specs.Prelude.{ℕ, List};
    ghost use Rattle.gov_ids.specs.declared.Drep.{Drep};
    ghost use Rattle.gov_ids.specs.Orders.{drep_cmp};
    ghost use Rattle.maps.specs.Maps.{IsMap};

    ghost Value = { List (Drep × ℕ) };

    ghost view = { λ a. a.amounts.items };

    ghost invariant = { λ a. IsMap drep_cmp a.amounts.items };
}

impl Sums {
    // 0 for each DRep of the book and each predefined one.
    pub(crate) fn of(alloc: Global, dreps: &DrepBook) -> Result<Sums, NoMemory>
        ensures { IfOk result (λ s. s ≡ no_sums dreps.now.dreps) }
    {
        let listed = dreps.expiries(alloc)?;
        let mut amounts = zeros(alloc, listed.as_slice())?;
        amounts.push((Drep::Abstain, 0))?;
        amounts.push((Drep::NoConfidence, 0))?;
        let hints = Hints::of(alloc, amounts.as_slice())?;
        Ok(Sums { amounts, hints })
    }

    // A copy.
    pub(crate) fn copied(&self, alloc: Global) -> Result<Sums, NoMemory>
        ensures { IfOk result (λ copy. copy ≡ self.now) }
    {
        Ok(Sums {
            amounts: self.amounts.iter().copied().collect(alloc)?,
            hints: self.hints.copied(alloc)?,
        })
    }

    // A 0 for each sum.
    pub(crate) fn zeros(&self, alloc: Global) -> Result<Vec<u64>, NoMemory>
        ensures { IfOk result (λ v. v.items ≡ no_part self.now) }
    {
        Ok(self.amounts.iter().map(|_| 0).collect(alloc)?)
    }

    // The index of a DRep's sum, if it has one.
    pub(crate) fn place(&self, d: &Drep) -> Option<usize>
        ensures there { IfSome result (IsPlaceOf self.now d.now) }
        ensures absent { IfNone result (value_at drep_cmp self.now d.now ≡ None) }
        ensures in_order { IsMap drep_cmp self.now }
    {
        let amounts = self.amounts.as_slice();
        match self.hints.place(amounts, d) {
            Some(place) => Some(place),
            None => place_of(amounts, d),
        }
    }

    // The sum of a DRep, 0 where there is none.
    pub(crate) fn get(&self, d: &Drep) -> u64
        ensures { result ≡ sum_for self.now d.now }
    {
        match self.place(d) {
            Some(place) => self.amounts[place].1,
            None => 0,
        }
    }

    // Adds to the sum of a DRep that has one. It takes no memory.
    pub(crate) fn add(&mut self, d: &Drep, n: u64)
        requires { sum_for self.old d.now + n < 2 ^ 64 }
        ensures { self.new ≡ changed_at drep_cmp d.now (λ s. s + n) self.old }
    {
        if let Some(place) = self.place(d) {
            self.amounts[place].1 += n;
        }
    }

    // Adds a part to the sums, in order. It takes no memory.
    pub(crate) fn gather(&mut self, part: &[u64])
        requires length { length part.now ≡ length self.old }
        requires fits { (d : Drep) → sum_for self.old d + sum_for (by_drep self.old part.now) d < 2 ^ 64 }
        ensures { self.new ≡ with_part part.now self.old }
    {
        for place in 0..part.len() {
            self.amounts[place].1 += part[place];
        }
    }
}

// 0 for each of these registered DReps.
fn zeros(alloc: Global, dreps: &[(Credential, u64)]) -> Result<Vec<(Drep, u64)>, NoMemory>
    ensures { IfOk result (λ v. v.items ≡ map (λ e. (Registered e.0, 0)) dreps.now) }
{
    Ok(
        dreps
            .iter()
            .map(|(c, _)| (Drep::Registered(*c), 0))
            .collect(alloc)?,
    )
}

// The index of a DRep's sum in a list in order.
fn place_of(amounts: &[(Drep, u64)], d: &Drep) -> Option<usize>
    requires { IsMap drep_cmp amounts.now }
    ensures there { IfSome result (IsPlaceOf amounts.now d.now) }
    ensures absent { IfNone result (value_at drep_cmp amounts.now d.now ≡ None) }
{
    amounts.binary_search_by(|amount| amount.0.cmp(d)).ok()
}
