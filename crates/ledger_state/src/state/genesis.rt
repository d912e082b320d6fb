ghost use Rattle.std.specs.Prelude.{◌≡◌, ◌≤◌, [], None, IfOk, true};
ghost use Rattle.epoch_start.specs.of_ledger_books.Parts.{ledger_of_books};
ghost use Rattle.ledger_state.specs.Starts.{StartsAs};
ghost use Rattle.run_model.specs.Boundary.{pool_stakes};
ghost use Rattle.tx_records.specs.GenesisLimits.{is_within_limits};

use super::LedgerState;
use coin_frac::NoMemory;
use epoch_start::of_freeze::pool_stakes;
use epoch_start::of_ledger_books::Books;
use hash_seed::HashSeed;
use listed::Listed;
use live_ledger::{GenesisFault, LiveLedger};
use snapshots::Snapshots;
use std::alloc::Global;
use tx_records::Genesis;

impl LedgerState {
    /// The state of a genesis, its epoch frozen, and its count, for so many workers, begun.
    /// The seed is of its hash tables; no clause depends on it.
    /// Errors: the first genesis rule that it breaks, or `NoMemory`, which may come at any time.
    pub fn from_genesis(
        alloc: Global,
        seed: HashSeed,
        genesis: &Genesis,
        workers: u32,
    ) -> Result<LedgerState, GenesisFault>
        requires within { is_within_limits genesis.now ≡ true }
        requires some { 1 ≤ workers }
        requires few { workers ≤ 64 }
        ensures { StartsAs result genesis.now }
    {
        let live = LiveLedger::from_genesis(alloc, seed, genesis)?;
        let books = first_books(alloc, live)?;
        Ok(LedgerState::begin_epoch(alloc, books, workers)?)
    }
}

/// The books of a first ledger. Mark has its pools' stakes; the two older snapshots are empty.
fn first_books(alloc: Global, live: LiveLedger) -> Result<Books, NoMemory>
    ensures ledger { IfOk result (λ b. ledger_of_books b ≡ live.ledger) }
    ensures marks { IfOk result (λ b. b.snapshots ≡ record { mark = pool_stakes live.ledger; set = []; go = []; fees = 0 }) }
    ensures pending { IfOk result (λ b. b.pending ≡ None) }
{
    match pool_stakes(alloc, live.stake(), live.pools()) {
        Ok(mark) => {
            let snapshots = Snapshots {
                mark: Listed::from_vec(mark),
                set: Listed::new(alloc),
                go: Listed::new(alloc),
                fees: 0,
            };
            Ok(live.into_books(snapshots, None))
        }
        Err(error) => {
            drop(live);
            Err(error)
        }
    }
}
