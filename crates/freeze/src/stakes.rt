ghost use Rattle.std.specs.Prelude.{◌≡◌, map, IfOk};
ghost use Rattle.stake_book.specs.Stakes.{pool_stake_in};

use cert_pool::PoolBook;
use coin_frac::NoMemory;
use gov_ids::PoolId;
use stake_book::StakeBook;
use std::alloc::Global;

/// The stake of each registered pool, in lovelace, in the order of pool ids: the new mark.
/// (SNAP of the formal specification)
pub fn pool_stakes(
    alloc: Global,
    stake: &StakeBook,
    pools: &PoolBook,
) -> Result<Vec<(PoolId, u64)>, NoMemory>
    ensures { IfOk result (λ v. v.items ≡ map (λ e. (e.0, pool_stake_in stake.now e.0)) pools.now) }
{
    let mut stakes = Vec::new(alloc);
    let ids = pools.ids(alloc)?;
    for p in &ids {
        stakes.push((*p, stake.pool_stake(p)))?;
    }
    Ok(stakes)
}
