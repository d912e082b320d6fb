ghost use Rattle.std.specs.Prelude.{◌≡◌, IfOk};
ghost use Rattle.std.specs.Map.{keys_of};

use coin_frac::NoMemory;
use gov_ids::{Credential, PoolId};
use listed::Listed;
use std::alloc::Global;
use std::collections::BTreeMap;

/// The names that changes touch, each list in the order of its keys.
#[derive(Drop)]
pub struct ChangedNames {
    /// The accounts that were registered, changed or left.
    pub accounts: Listed<Credential>,
    /// The DReps that left: delegations to them end, and their votes leave all proposals.
    pub left: Listed<Credential>,
    /// The pools.
    pub pools: Listed<PoolId>,
    /// The DReps that were registered, changed or left.
    pub dreps: Listed<Credential>,
    /// Whether the dormant epochs are added to the expiries of other DReps, too.
    pub refreshed: bool,
    /// The cold keys that authorized a hot key or resigned.
    pub hot: Listed<Credential>,
}

/// The keys of a map, in order.
pub(crate) fn names_in<X>(
    alloc: Global,
    map: &BTreeMap<Credential, X>,
) -> Result<Vec<Credential>, NoMemory>
    ensures { IfOk result (λ names. names.items ≡ keys_of map.now.entries) }
{
    let names = map.iter().map(|(c, _)| *c).collect(alloc)?;
    Ok(names)
}
