//! Blocks: one of the current epoch is logged and marked, one of the next epoch begins the log.
ghost use Rattle.std.specs.Prelude.{◌≡◌, ◌≤◌, None, false, true};
ghost use Rattle.following.specs.Logged.{AreMarksPast};
ghost use Rattle.following.specs.Moves.{Moves};
ghost use Rattle.ledger_model.specs.Checks.{first_among};
ghost use Rattle.run_model.specs.Step.{block_checks, enters_next, step};
ghost use Rattle.tx_records.specs.RecordLimits.{is_within_limits};
ghost use Rattle.tx_records.specs.declared.record.Reading.TheVariants as readings;
ghost use Rattle.tx_records.specs.declared.record.Record.TheVariants as records;
ghost use Rattle.undo_model.specs.Holds.{Holds};

use crate::followed::{Followed, Moved};
use crate::passed::passed_on;
use held_ledger::Crew;
use par_count::Gate;
use replay_loop::Outcome;
use std::alloc::Global;
use std::thread::Threads;
use tx_records::{Reading, Record, Reply};
use undo_before::before;
use undo_records::Before;

/// The state after a block.
pub(crate) fn after_block<T: Threads + Sync, G: Gate + Sync>(
    crew: &Crew<T, G>,
    workers: u32,
    state: Followed,
    slot: u64,
    pulse: u32,
) -> Moved
    requires within { is_within_limits (records.Block slot pulse) ≡ true }
    requires some { 1 ≤ workers }
    requires few { workers ≤ 64 }
    requires past { AreMarksPast state.held.ledger state.log }
    ensures { Moves state.held.ledger state.log (readings.Read (records.Block slot pulse)) result }
{
    match state.held.ledger().check_block(slot, pulse) {
        Ok(true) => after_crossing(crew, workers, state, slot, pulse),
        Ok(false) => after_within(crew.alloc, state, slot, pulse),
        Err(rule) => Ok((state, Outcome::Answered(Reply::Refused(rule)))),
    }
}

/// The state after a block of the next epoch that breaks no rule: its log has that block's mark.
fn after_crossing<T: Threads + Sync, G: Gate + Sync>(
    crew: &Crew<T, G>,
    workers: u32,
    state: Followed,
    slot: u64,
    pulse: u32,
) -> Moved
    requires within { is_within_limits (records.Block slot pulse) ≡ true }
    requires some { 1 ≤ workers }
    requires few { workers ≤ 64 }
    requires unbroken { first_among (block_checks state.held.ledger.ledger slot pulse) ≡ None }
    requires enters { enters_next state.held.ledger.ledger slot ≡ true }
    ensures { Moves state.held.ledger state.log (readings.Read (records.Block slot pulse)) result }
{
    let reading = Reading::Read(Record::Block { slot, pulse });
    let (after, outcome) = passed_on(crew, workers, state, &reading)?;
    let mut after = after;
    after.log.clear();
    after.log.mark(slot)?;
    Ok((after, outcome))
}

/// The state after a block of the current epoch that breaks no rule.
fn after_within(alloc: Global, state: Followed, slot: u64, pulse: u32) -> Moved
    requires within { is_within_limits (records.Block slot pulse) ≡ true }
    requires past { AreMarksPast state.held.ledger state.log }
    requires unbroken { first_among (block_checks state.held.ledger.ledger slot pulse) ≡ None }
    requires stays { enters_next state.held.ledger.ledger slot ≡ false }
    ensures { Moves state.held.ledger state.log (readings.Read (records.Block slot pulse)) result }
{
    match before(alloc, state.held.ledger(), &Record::Block { slot, pulse }) {
        Ok(old) => after_pulse(alloc, state, old, slot, pulse),
        Err(error) => {
            drop(state);
            Err(error.into())
        }
    }
}

/// The state after such a block, of which these are the old values.
fn after_pulse(alloc: Global, state: Followed, old: Before, slot: u64, pulse: u32) -> Moved
    requires within { is_within_limits (records.Block slot pulse) ≡ true }
    requires past { AreMarksPast state.held.ledger state.log }
    requires unbroken { first_among (block_checks state.held.ledger.ledger slot pulse) ≡ None }
    requires stays { enters_next state.held.ledger.ledger slot ≡ false }
    requires holds { Holds state.held.ledger old (step state.held.ledger (records.Block slot pulse)).0 }
    ensures { Moves state.held.ledger state.log (readings.Read (records.Block slot pulse)) result }
{
    let Followed { held, log } = state;
    let (ledger, _accepted) = held.ledger.into_value().block(slot, pulse);
    let mut after = Followed::logged(alloc, ledger, log, old)?;
    after.log.mark(slot)?;
    Ok((after, Outcome::Block))
}
