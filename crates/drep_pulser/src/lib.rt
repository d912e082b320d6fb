//! The count of the stake of DReps, a number of frozen entries at a time.
#![tactic(auto)]

ghost use Rattle.std.specs.Prelude.{◌≡◌, IfOk};

use coin_frac::NoMemory;
use std::alloc::Global;

mod bounds;
mod counted;
mod counting;
mod hints;
mod part;
mod sums;
mod walk;

pub use counted::Counted;
pub use counting::{Counting, begin};
pub use part::Part;
pub use walk::Walk;

/// A count that goes on, or one that has ended. (the DRep pulser of cardano-ledger)
#[derive(Debug, Drop)]
pub enum Pulser {
    /// Some entries are not visited yet.
    Counting(Counting),
    /// All are visited.
    Counted(Counted),
}

impl Pulser {
    /// A copy.
    pub fn copied(&self, alloc: Global) -> Result<Pulser, NoMemory>
        ensures { IfOk result (λ copy. copy ≡ self.now) }
    {
        Ok(match self {
            Pulser::Counting(counting) => Pulser::Counting(counting.copied(alloc)?),
            Pulser::Counted(counted) => Pulser::Counted(counted.copied(alloc)?),
        })
    }
}
