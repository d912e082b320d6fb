ghost use Rattle.std.specs.Prelude.{◌≡◌};

use gov_ids::PoolId;
use listed::Listed;
use std::mem;

/// The stakes of registered pools at the last three boundaries, in lovelace, in the order of pool
/// ids, and the fee pot at the last one. (Snapshots of the formal specification)
#[derive(Debug, Drop)]
pub struct Snapshots {
    /// At the last boundary.
    pub mark: Listed<(PoolId, u64)>,
    /// At the one before.
    pub set: Listed<(PoolId, u64)>,
    /// At the one before that.
    pub go: Listed<(PoolId, u64)>,
    /// The fee pot at the last boundary, in lovelace.
    pub fees: u64,
}

impl Snapshots {
    /// The stakes and the fee pot of a new boundary come in: mark becomes set, and set becomes go.
    /// (SNAP of the formal specification)
    pub fn turn(&mut self, mark: Vec<(PoolId, u64)>, fees: u64)
        ensures { self.new ≡ record { mark = mark.items; set = self.old.mark; go = self.old.set; fees = fees } }
    {
        let mark = mem::replace(&mut self.mark, Listed::from_vec(mark));
        self.go = mem::replace(&mut self.set, mark);
        self.fees = fees;
    }
}
