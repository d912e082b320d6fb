ghost use Rattle.std.specs.Prelude.{IfSome};
ghost use Rattle.drep_pulser.specs.Places.{IsPlaceOf};

use coin_frac::NoMemory;
use gov_ids::Drep;
use std::alloc::Global;

// Up to this many DReps have eight slots each.
const MOST: usize = 8192;

// Hints for the index of a DRep in a list in order: a slot has the last index hashed to it.
// The slot is the last two bytes of a hash, masked; each predefined option has its own.
// No clause rests on a hint: the reader compares the DRep at the index.
#[derive(Debug, Drop)]
pub(crate) struct Hints {
    places: Vec<u32>,
    mask: u16,
}

impl Hints {
    // Hints for DReps with their sums.
    pub(crate) fn of(alloc: Global, amounts: &[(Drep, u64)]) -> Result<Hints, NoMemory> {
        let slots = (amounts.len().min(MOST) * 8).next_power_of_two();
        let mask = u16::try_from(slots.saturating_sub(1)).unwrap_or(u16::MAX);
        let mut places = vec![in alloc; 0; usize::from(mask) + 3]?;
        for place in 0..amounts.len() {
            if let Some(slot) = places.get_mut(slot_of(&amounts[place].0, mask)) {
                *slot = u32::try_from(place).unwrap_or(u32::MAX);
            }
        }
        Ok(Hints { places, mask })
    }

    // A copy.
    pub(crate) fn copied(&self, alloc: Global) -> Result<Hints, NoMemory> {
        Ok(Hints {
            places: self.places.iter().copied().collect(alloc)?,
            mask: self.mask,
        })
    }

    // The index of a DRep's sum; none where it is not at the hinted index.
    pub(crate) fn place(&self, amounts: &[(Drep, u64)], d: &Drep) -> Option<usize>
        ensures { IfSome result (IsPlaceOf amounts.now d.now) }
    {
        let hint = self.places.get(slot_of(d, self.mask))?;
        let place = *hint as usize;
        let (there, _) = amounts.get(place)?;
        if there.cmp(d).is_eq() {
            Some(place)
        } else {
            None
        }
    }
}

// The slot of a DRep.
fn slot_of(d: &Drep, mask: u16) -> usize {
    match d {
        Drep::Registered(c) => usize::from(u16::from_be_bytes([c.hash[26], c.hash[27]]) & mask),
        Drep::Abstain => usize::from(mask) + 1,
        Drep::NoConfidence => usize::from(mask) + 2,
    }
}
