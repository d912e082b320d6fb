ghost use Rattle.std.specs.Prelude.{◌≡◌, ◌≤◌, IfOk};
ghost use Rattle.drep_pulser.specs.Facts.{IsCountOf};
ghost use Rattle.epoch_start.specs.Begun.{accounts_of_pools, begun_of};
ghost use Rattle.gov_ids.specs.Orders.{credential_cmp};
ghost use Rattle.ledger_state.specs.Parts.{world_of_parts};
ghost use Rattle.ledger_state.specs.Worlds.{IsHeldBy};
ghost use Rattle.run_model.specs.SoundWorld.{IsSoundWorld};
ghost use Rattle.snapshots.specs.Frozen.{frozen_copy_of};
ghost use Rattle.view_map.specs.View.{frozen_of};

use super::LedgerState;
use coin_frac::NoMemory;
use drep_pulser::{Counting, Pulser};
use epoch_start::of_ledger_books::Books;
use epoch_start::{begun_count, frozen_copy};
use listed::Boxed;
use snapshots::Frozen;
use std::alloc::Global;

impl LedgerState {
    /// The state in which these books' epoch begins: what its pass reads is frozen, and a count for
    /// so many workers has all its memory and no visits. After `NoMemory` there is no state.
    /// (NEWEPOCH of the formal specification; the DRep pulser of cardano-ledger)
    pub fn begin_epoch(alloc: Global, b: Books, workers: u32) -> Result<LedgerState, NoMemory>
        requires some { 1 ≤ workers }
        requires few { workers ≤ 64 }
        requires sound { IsSoundWorld (begun_of b) }
        ensures { IfOk result (λ s. s ≡ begun_of b) }
    {
        let mut books = b;
        books.stake.freeze();
        match begun_parts(alloc, &books, workers) {
            Ok((frozen, counting)) => {
                let state = begun_with(alloc, books, frozen, Pulser::Counting(counting))?;
                Ok(state)
            }
            Err(error) => {
                drop(books);
                Err(error)
            }
        }
    }
}

/// The state of these parts, its books in memory of their own.
fn begun_with(alloc: Global, b: Books, f: Boxed<Frozen>, p: Pulser) -> Result<LedgerState, NoMemory>
    requires { IsHeldBy (world_of_parts b f p) f p }
    ensures { IfOk result (λ s. s ≡ world_of_parts b f p) }
{
    match Box::new(alloc, b) {
        Ok(books) => Ok(LedgerState::from_books(alloc, books, f, p)),
        Err(refused) => {
            drop((refused, f, p));
            Err(NoMemory)
        }
    }
}

/// A copy of what is frozen, where the live entries are the frozen ones, and its unvisited count.
fn begun_parts(
    alloc: Global,
    books: &Books,
    workers: u32,
) -> Result<(Boxed<Frozen>, Counting), NoMemory>
    requires some { 1 ≤ workers }
    requires few { workers ≤ 64 }
    requires frozen { frozen_of credential_cmp books.now.stake.accounts ≡ books.now.stake.accounts.live }
    requires sound { IsSoundWorld (begun_of books.now) }
    ensures copy { IfOk result (λ r. r.0 ≡ frozen_copy_of (begun_of books.now).frozen) }
    ensures accounts { IfOk result (λ r. accounts_of_pools r.0.pools ≡ (begun_of books.now).frozen.pool_accounts) }
    ensures counts { IfOk result (λ r. IsCountOf (begun_of books.now).frozen r.1) }
    ensures none_visited { IfOk result (λ r. r.1.done ≡ 0) }
{
    let frozen = Boxed::new(alloc, frozen_copy(alloc, books)?)?;
    let counting = begun_count(alloc, books, workers)?;
    Ok((frozen, counting))
}
