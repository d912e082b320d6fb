//! The ledger.
ghost use Rattle.std.specs.Prelude.{◌≡◌, ◌≤◌, IfOk};
ghost use Rattle.checkpoint_model.specs.Resumable.{IsResumable};
ghost use Rattle.coin_frac.specs.declared.TheConstants.{SUPPLY_LIMIT};
ghost use Rattle.ledger_model.specs.Supply.{total_of};
ghost use Rattle.ledger_state.specs.Parts.{world_of_parts};
ghost use Rattle.ledger_state.specs.Worlds.{IsHeldBy};
ghost use Rattle.state_lists.specs.Worlds.{world_of_lists};

use crate::books::{Progress, books_of};
use crate::frozen::frozen_parts;
use coin_frac::NoMemory;
use drep_pulser::Pulser;
use further_laws::resumable_is_sound;
use hash_seed::HashSeed;
use ledger_books::Books;
use ledger_state::LedgerState;
use listed::Boxed;
use snapshots::Frozen;
use state_lists::StateLists;
use std::alloc::Global;
use tx_records::Pots;

/// The ledger of the lists of a state that can be resumed, which counts for so many workers.
/// `NoMemory` may come at any time and takes the lists.
pub fn ledger_of_lists(
    alloc: Global,
    seed: HashSeed,
    lists: StateLists,
    workers: u32,
) -> Result<LedgerState, NoMemory>
    requires some { 1 ≤ workers }
    requires few { workers ≤ 64 }
    requires sound { IsResumable (world_of_lists lists) }
    ensures { IfOk result (λ s. s ≡ world_of_lists lists) }
{
    // (law: what can be resumed is sound)
    resumable_is_sound();
    let (clock, counted, pots, state, books, pending, stakes, frozen) = lists.into_parts();
    let supply = supply_of(&pots);
    let mark = stakes.mark.as_slice();
    let kept = frozen_parts(alloc, clock.epoch, &state, frozen, mark)?;
    let (copy, entries) = kept;
    let progress = Progress { counted, workers };
    let made = books_of(
        alloc,
        seed,
        books,
        clock.dormant,
        entries,
        copy.get(),
        progress,
    )?;
    let ((stake, pulser), (pools, dreps, hot), proposals) = made;
    let state = Boxed::new(alloc, state)?;
    let books = Books {
        network: clock.network,
        length: clock.epoch_length,
        supply,
        slot: clock.slot,
        epoch: clock.epoch,
        stake,
        pools,
        dreps,
        hot,
        proposals,
        snapshots: stakes,
        state,
        pending,
        reserves: pots.reserves,
        fees: pots.fees,
        donations: pots.donations,
    };
    of_parts(alloc, books, copy, pulser)
}

/// The ledger of these parts.
fn of_parts(
    alloc: Global,
    books: Books,
    copy: Boxed<Frozen>,
    pulser: Pulser,
) -> Result<LedgerState, NoMemory>
    requires { IsHeldBy (world_of_parts books copy pulser) copy pulser }
    ensures { IfOk result (λ s. s ≡ world_of_parts books copy pulser) }
{
    match Box::new(alloc, books) {
        Ok(books) => Ok(LedgerState::from_books(alloc, books, copy, pulser)),
        Err(refused) => {
            drop((refused, copy, pulser));
            Err(NoMemory)
        }
    }
}

/// The sum of the pots, in lovelace.
fn supply_of(pots: &Pots) -> u64
    requires { total_of pots.now ≤ SUPPLY_LIMIT }
    ensures { result ≡ total_of pots.now }
{
    let held = pots.outputs + pots.deposits + pots.rewards;
    held + pots.fees + pots.donations + pots.treasury + pots.reserves
}
