ghost use Rattle.std.specs.Prelude.{◌≡◌, ◌≤◌, IfOk};
ghost use Rattle.drep_pulser.specs.Facts.{IsCountOf};
ghost use Rattle.epoch_start.specs.Begun.{begun_of};
ghost use Rattle.gov_ids.specs.Orders.{credential_cmp};
ghost use Rattle.run_model.specs.SoundWorld.{IsSoundWorld};
ghost use Rattle.view_map.specs.View.{frozen_of};

use coin_frac::NoMemory;
use drep_pulser::{Counting, begin};
use freeze::deposits_by_account;
use ledger_books::Books;
use std::alloc::Global;

/// Begins a count of the frozen entries for so many workers. (The DRep pulser of cardano-ledger)
/// The live entries are the frozen ones. It takes all memory of the count.
pub fn begun_count(alloc: Global, b: &Books, workers: u32) -> Result<Counting, NoMemory>
    requires some { 1 ≤ workers }
    requires few { workers ≤ 64 }
    requires frozen { frozen_of credential_cmp b.now.stake.accounts ≡ b.now.stake.accounts.live }
    requires sound { IsSoundWorld (begun_of b.now) }
    ensures counts { IfOk result (IsCountOf (begun_of b.now).frozen) }
    ensures none_visited { IfOk result (λ c. c.done ≡ 0) }
{
    let deposits = deposits_by_account(alloc, &b.proposals)?;
    begin(alloc, b.stake.book(), &b.dreps, &deposits, workers)
}
