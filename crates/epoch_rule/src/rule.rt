ghost use Rattle.std.specs.Prelude.{◌≡◌, ◌<◌, ◌≤◌, ◌^◌, IfOk, length};
ghost use Rattle.epoch_rule.specs.Lists.{lists_of};
ghost use Rattle.ledger_state.specs.of_epoch_start.Begun.{begun_of};
ghost use Rattle.gov_model.specs.Snapshot.{entry_count};
ghost use Rattle.ledger_model.specs.Moves.{IsMovedBy};
ghost use Rattle.ledger_model.specs.Supply.{pots_of};
ghost use Rattle.run_model.specs.Boundary.{world_after_boundary};
ghost use Rattle.run_model.specs.BoundaryFlows.{flows_of_boundary};
ghost use Rattle.run_model.specs.Report.{report_of};

use crate::books::{Lists, crossed};
use crate::cells::{cells_for, tallied, tallied_alone};
use crate::counts::{entries_of, finished, finished_alone};
use coin_frac::NoMemory;
use epoch_balance::{boundary_balances, payments_are_covered};
use epoch_steps::of_frozen_reads::sound_can_be_counted;
use ledger_books::Books;
use ledger_state::LedgerState;
use ledger_state::of_run_laws::boundaries_keep_sound;
use par_count::Gate;
use std::alloc::Global;
use std::thread::Threads;
use tally::TallyCell;
use tx_records::EpochReport;

/// Crosses the boundary: counts the rest, runs the pass, acts by the rules, freezes the next epoch.
/// The number of workers changes no answer. After an out-of-memory error there is no state.
/// (NEWEPOCH and EPOCH of the formal specification; CIP-1694, Enactment)
pub fn cross<R: Threads + Sync, G: Gate + Sync>(
    alloc: Global,
    rt: &R,
    s: LedgerState,
    workers: u32,
    gate: &G,
) -> Result<(LedgerState, EpochReport), NoMemory>
    requires early { s.ledger.epoch < 2 ^ 62 }
    requires some { 1 ≤ workers }
    requires few { workers ≤ 64 }
    ensures world { IfOk result (λ r. r.0 ≡ world_after_boundary s) }
    ensures report { IfOk result (λ r. r.1 ≡ report_of s) }
    ensures moved { IfOk result (λ r. IsMovedBy (flows_of_boundary s) (pots_of s.ledger) (pots_of r.0.ledger)) }
{
    boundaries_keep_sound();
    boundary_balances();
    payments_are_covered();
    // the state is a sound World
    let _sound = s.live();
    let cells = match cells_for(alloc, s.frozen()) {
        Ok(cells) => cells,
        Err(fault) => {
            drop(s);
            return Err(fault);
        }
    };
    let (ended, lists) = ended(alloc, rt, s, cells, workers, gate)?;
    match LedgerState::begin_epoch(alloc, ended, workers) {
        Ok(state) => Ok(reported(state, lists)),
        Err(fault) => {
            drop(lists);
            Err(fault)
        }
    }
}

/// Crosses the boundary as `cross` does, in this thread.
/// (NEWEPOCH and EPOCH of the formal specification; CIP-1694, Enactment)
pub fn cross_alone(alloc: Global, s: LedgerState) -> Result<(LedgerState, EpochReport), NoMemory>
    requires early { s.ledger.epoch < 2 ^ 62 }
    ensures world { IfOk result (λ r. r.0 ≡ world_after_boundary s) }
    ensures report { IfOk result (λ r. r.1 ≡ report_of s) }
{
    boundaries_keep_sound();
    // the state is a sound World
    let _sound = s.live();
    let (ended, lists) = ended_alone(alloc, s)?;
    match LedgerState::begin_epoch(alloc, ended, 1) {
        Ok(state) => Ok(reported(state, lists)),
        Err(fault) => {
            drop(lists);
            Err(fault)
        }
    }
}

// The books after all steps but the freeze, and what is reported of them.
fn ended<R: Threads + Sync, G: Gate + Sync>(
    alloc: Global,
    rt: &R,
    s: LedgerState,
    cells: Vec<TallyCell>,
    workers: u32,
    gate: &G,
) -> Result<(Books, Lists), NoMemory>
    requires early { s.ledger.epoch < 2 ^ 62 }
    requires some { 1 ≤ workers }
    requires few { workers ≤ 64 }
    requires each { length cells.items ≡ length s.frozen.proposals }
    ensures begun { IfOk result (λ r. begun_of r.0 ≡ world_after_boundary s) }
    ensures lists { IfOk result (λ r. r.1 ≡ lists_of s) }
{
    sound_can_be_counted();
    let (books, frozen, pulser) = s.into_books();
    let counted = finished(rt, pulser, books.stake.book(), workers, gate);
    let tallied = tallied(rt, &frozen, &counted, cells, workers, gate);
    crossed(alloc, books, &frozen, &counted, tallied.as_slice())
}

// The books after all steps but the freeze, and what is reported of them, counted in this thread.
fn ended_alone(alloc: Global, s: LedgerState) -> Result<(Books, Lists), NoMemory>
    requires early { s.ledger.epoch < 2 ^ 62 }
    ensures begun { IfOk result (λ r. begun_of r.0 ≡ world_after_boundary s) }
    ensures lists { IfOk result (λ r. r.1 ≡ lists_of s) }
{
    sound_can_be_counted();
    let (books, frozen, pulser) = s.into_books();
    let counted = finished_alone(pulser, books.stake.book());
    match tallied_alone(alloc, &frozen, &counted) {
        Ok(tallied) => crossed(alloc, books, &frozen, &counted, tallied.as_slice()),
        Err(fault) => {
            drop(books);
            Err(fault)
        }
    }
}

// The state in which the next epoch begins, and the report of the boundary.
fn reported(state: LedgerState, lists: Lists) -> (LedgerState, EpochReport)
    ensures state { result.0 ≡ state }
    ensures report { result.1 ≡ record {
      epoch = state.ledger.epoch;
      frozen = entry_count state.frozen;
      dormant = state.ledger.dormant;
      stakes = lists.stakes;
      tallies = lists.tallies;
      paid = lists.paid;
      removed = lists.removed;
      retired = lists.retired;
    } }
{
    let report = EpochReport {
        epoch: state.epoch(),
        frozen: entries_of(state.pulser()),
        dormant: state.dreps().dormant(),
        stakes: lists.stakes,
        tallies: lists.tallies,
        paid: lists.paid,
        removed: lists.removed,
        retired: lists.retired,
    };
    (state, report)
}
