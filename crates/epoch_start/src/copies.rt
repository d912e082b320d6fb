ghost use Rattle.std.specs.Prelude.{◌≡◌, IfOk};
ghost use Rattle.epoch_start.specs.Begun.{accounts_of_pools, begun_of};
ghost use Rattle.run_model.specs.SoundWorld.{IsSoundWorld};
ghost use Rattle.snapshots.specs.Frozen.{frozen_copy_of};

use coin_frac::NoMemory;
use freeze::{copied_proposals, deposits_by_pool, frozen_pools, pools_are_frozen};
use ledger_books::Books;
use listed::Listed;
use snapshots::{Frozen, FrozenPool, HotList};
use std::alloc::Global;

/// A copy of what is frozen of these books when their epoch begins.
/// (CIP-1694, Changes to the stake snapshot; EPOCH of the formal specification)
pub fn frozen_copy(alloc: Global, b: &Books) -> Result<Frozen, NoMemory>
    requires { IsSoundWorld (begun_of b.now) }
    ensures copy { IfOk result (λ f. f ≡ frozen_copy_of (begun_of b.now).frozen) }
    ensures accounts { IfOk result (λ f. accounts_of_pools f.pools ≡ (begun_of b.now).frozen.pool_accounts) }
{
    let start = b.state.get().copied(alloc)?;
    let dreps = Listed::from_vec(b.dreps.expiries(alloc)?);
    let pools = pools_copy(alloc, b)?;
    let hot = HotList::from_vec(b.hot.listed(alloc)?);
    let proposals = copied_proposals(alloc, &b.proposals)?;
    Ok(Frozen {
        epoch: b.epoch,
        start,
        dreps,
        pools,
        hot,
        proposals,
    })
}

/// The pools of mark as they are frozen. (RatifyEnv of the formal specification)
fn pools_copy(alloc: Global, b: &Books) -> Result<Listed<FrozenPool>, NoMemory>
    requires { IsSoundWorld (begun_of b.now) }
    ensures copy { IfOk result (λ l. l ≡ (frozen_copy_of (begun_of b.now).frozen).pools) }
    ensures accounts { IfOk result (λ l. accounts_of_pools l ≡ (begun_of b.now).frozen.pool_accounts) }
{
    pools_are_frozen();
    let accounts = b.stake.book();
    let deposits = deposits_by_pool(alloc, &b.proposals, accounts)?;
    frozen_pools(
        alloc,
        b.snapshots.mark.as_slice(),
        &b.pools,
        accounts,
        &deposits,
    )
}
