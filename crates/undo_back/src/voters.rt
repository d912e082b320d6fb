ghost use Rattle.std.specs.Prelude.{◌≡◌, OnOk};
ghost use Rattle.gov_ids.specs.Orders.{credential_cmp, pool_cmp};
ghost use Rattle.undo_model.specs.Undone.{with_old};

use book_records::{DrepState, Pool};
use cert_pool::PoolBook;
use committee_book::HotBook;
use drep_book::DrepBook;
use gov_actions::HotState;
use gov_ids::{Credential, PoolId};
use no_memory::NoMemory;

/// Puts old pools back. After `NoMemory` the caller drops the book.
pub(crate) fn restore_pools(
    pools: &mut PoolBook,
    olds: &[(PoolId, Option<Pool>)],
) -> Result<(), NoMemory>
    ensures { OnOk result (pools.new ≡ with_old pool_cmp olds.now pools.old) }
{
    for (pool, to) in olds {
        pools.restore(*pool, *to)?;
    }
    Ok(())
}

/// Puts old DReps and the old dormant count back. After `NoMemory` the caller drops the book.
pub(crate) fn restore_dreps(
    dreps: &mut DrepBook,
    dormant: u64,
    olds: &[(Credential, Option<DrepState>)],
) -> Result<(), NoMemory>
    ensures { OnOk result (dreps.new ≡
        record { dreps = with_old credential_cmp olds.now dreps.old.dreps; dormant = dormant }) }
{
    dreps.set_dormant(dormant);
    for (drep, to) in olds {
        dreps.restore(*drep, *to)?;
    }
    Ok(())
}

/// Puts old hot keys and resignations back. After `NoMemory` the caller drops the book.
pub(crate) fn restore_hot(
    hot: &mut HotBook,
    olds: &[(Credential, Option<HotState>)],
) -> Result<(), NoMemory>
    ensures { OnOk result (hot.new ≡ with_old credential_cmp olds.now hot.old) }
{
    for (cold, to) in olds {
        hot.restore(*cold, *to)?;
    }
    Ok(())
}
