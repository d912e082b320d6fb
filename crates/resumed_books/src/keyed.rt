//! The books of pools, DReps and hot keys.
ghost use Rattle.std.specs.Prelude.{◌≡◌, IfOk};
ghost use Rattle.gov_ids.specs.Orders.{credential_cmp, pool_cmp};
ghost use Rattle.maps.specs.Maps.{IsMap};

use book_records::{DrepState, Pool};
use cert_pool::PoolBook;
use coin_frac::NoMemory;
use committee_book::HotBook;
use drep_book::DrepBook;
use gov_actions::HotState;
use gov_ids::{Credential, PoolId};
use listed::Listed;
use std::alloc::Global;

/// The book of these pools, which are in order of their ids. `NoMemory` may come at any time.
pub fn pools_of(alloc: Global, pools: Listed<(PoolId, Pool)>) -> Result<PoolBook, NoMemory>
    requires { IsMap pool_cmp pools }
    ensures { IfOk result (λ book. book ≡ pools) }
{
    let mut book = PoolBook::new(alloc);
    for (id, pool) in pools.as_slice() {
        book.restore(*id, Some(*pool))?;
    }
    Ok(book)
}

/// The book of these DReps, which are in order of credentials, with so many dormant epochs.
/// `NoMemory` may come at any time.
pub fn dreps_of(
    alloc: Global,
    dreps: Listed<(Credential, DrepState)>,
    dormant: u64,
) -> Result<DrepBook, NoMemory>
    requires { IsMap credential_cmp dreps }
    ensures { IfOk result (λ book. book ≡ record { dreps = dreps; dormant = dormant }) }
{
    let mut book = DrepBook::new(alloc);
    book.set_dormant(dormant);
    for (credential, drep) in dreps.as_slice() {
        book.put(*credential, *drep)?;
    }
    Ok(book)
}

/// The book of what these cold keys authorized; they are in order. `NoMemory` may come at any time.
pub fn hot_of(alloc: Global, hot: Listed<(Credential, HotState)>) -> Result<HotBook, NoMemory>
    requires { IsMap credential_cmp hot }
    ensures { IfOk result (λ book. book ≡ hot) }
{
    let mut book = HotBook::new(alloc);
    for (cold, state) in hot.as_slice() {
        book.set(*cold, *state)?;
    }
    Ok(book)
}
