ghost use Rattle.std.specs.Prelude.{◌≡◌, OnOk};
ghost use Rattle.book_records.specs.Dormancy.{AllFit};
ghost use Rattle.gov_ids.specs.Orders.{credential_cmp, pool_cmp};
ghost use Rattle.draft_changes.specs.ChangedDreps.{laid_over};
ghost use Rattle.maps.specs.Maps.{with_values};

use crate::drep_changes::DrepChanges;
use crate::hot_changes::HotChanges;
use crate::pool_changes::PoolChanges;
use cert_pool::PoolBook;
use coin_frac::NoMemory;
use ledger_books::of_committee_book::HotBook;
use ledger_books::of_drep_book::DrepBook;
use std::alloc::Global;

/// The changes of a draft to all who can vote.
#[derive(Drop)]
pub(crate) struct VoterChanges {
    pub(crate) pools: PoolChanges,
    pub(crate) dreps: DrepChanges,
    pub(crate) hot: HotChanges,
}

impl VoterChanges {
    /// Lays these changes over the pools, DReps and hot keys of an epoch.
    /// After `NoMemory` the caller drops them.
    pub(crate) fn lay_over(
        self,
        alloc: Global,
        epoch: u64,
        pools: &mut PoolBook,
        dreps: &mut DrepBook,
        hot: &mut HotBook,
    ) -> Result<(), NoMemory>
        requires fit { AllFit dreps.old.dormant dreps.old.dreps }
        ensures pools { OnOk result (pools.new ≡ with_values pool_cmp self.pools.entries pools.old) }
        ensures dreps { OnOk result (dreps.new ≡ laid_over self.dreps epoch dreps.old) }
        ensures hot { OnOk result (hot.new ≡ with_values credential_cmp self.hot.entries hot.old) }
    {
        self.pools.lay_over(alloc, pools)?;
        self.dreps.lay_over(dreps, epoch)?;
        self.hot.lay_over(alloc, hot)
    }
}
