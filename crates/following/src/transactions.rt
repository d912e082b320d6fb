//! Transactions and reward updates: their old values are read before they are applied.
ghost use Rattle.std.specs.Prelude.{◌≡◌, IfOk, Ok, true};
ghost use Rattle.following.specs.Moves.{Moves, logged_by};
ghost use Rattle.run_model.specs.Step.{step};
ghost use Rattle.tx_records.specs.RecordLimits as record_limits;
ghost use Rattle.tx_records.specs.TxLimits as tx_limits;
ghost use Rattle.tx_records.specs.declared.record.Reading.TheVariants as readings;
ghost use Rattle.tx_records.specs.declared.record.Record.TheVariants as records;
ghost use Rattle.undo_before.specs.of_tx_rule.Judged.{IsJudged};
ghost use Rattle.undo_model.specs.Holds.{Holds};

use crate::followed::{Followed, Moved};
use follow_view::of_ledger_state::LedgerState;
use no_memory::NoMemory;
use replay_loop::{AnswerFault, Outcome};
use std::alloc::Global;
use tx_records::{Record, Reply, Rewards, Tx, TxFault};
use undo_before::of_draft_changes::Changes;
use undo_before::of_tx_rule::{accepted, judged};
use undo_before::{before, before_judged};
use undo_log::UndoLog;
use undo_records::Before;

/// The state after a transaction. It is judged once; a refused one pays for no old values.
pub(crate) fn after_tx(alloc: Global, state: Followed, tx: &Tx) -> Moved
    requires within { tx_limits.is_within_limits tx.now ≡ true }
    ensures { Moves state.held.ledger state.log (readings.Read (records.Tx tx.now)) result }
{
    match judged(alloc, state.held.ledger(), tx) {
        Ok(changes) => after_judged(alloc, state, changes, tx),
        Err(TxFault::Refused(rule)) => Ok((state, Outcome::Answered(Reply::Refused(rule)))),
        Err(TxFault::NoMemory) => {
            drop(state);
            Err(AnswerFault::NoMemory)
        }
    }
}

/// The state after a transaction of which `judged` gave these changes.
fn after_judged(alloc: Global, state: Followed, changes: Changes, tx: &Tx) -> Moved
    requires within { tx_limits.is_within_limits tx.now ≡ true }
    requires judged { IsJudged (Ok changes) state.held.ledger.ledger tx.now }
    ensures { Moves state.held.ledger state.log (readings.Read (records.Tx tx.now)) result }
{
    match before_judged(alloc, state.held.ledger(), &changes, tx) {
        Ok(old) => {
            let Followed { held, log } = state;
            let (ledger, reply) = accepted(held.ledger.into_value(), changes, tx)?;
            let after = Followed::logged(alloc, ledger, log, old)?;
            Ok((after, Outcome::Answered(reply)))
        }
        Err(error) => {
            drop((state, changes));
            Err(error.into())
        }
    }
}

/// The state after a reward update. Its old values name nothing, so they are read at once.
pub(crate) fn after_rewards(
    alloc: Global,
    state: Followed,
    found: &Record,
    update: &Rewards,
) -> Moved
    requires within { record_limits.is_within_limits found.now ≡ true }
    requires is { found.now ≡ records.Rewards update.now }
    ensures { Moves state.held.ledger state.log (readings.Read (records.Rewards update.now)) result }
{
    match before(alloc, state.held.ledger(), found) {
        Ok(old) => after_given(alloc, state, old, update),
        Err(error) => {
            drop(state);
            Err(error.into())
        }
    }
}

/// The state after a reward update with these old values, which a refused one leaves out.
fn after_given(alloc: Global, state: Followed, old: Before, update: &Rewards) -> Moved
    requires within { record_limits.is_within_limits (records.Rewards update.now) ≡ true }
    requires holds { Holds state.held.ledger old (step state.held.ledger (records.Rewards update.now)).0 }
    ensures { Moves state.held.ledger state.log (readings.Read (records.Rewards update.now)) result }
{
    let Followed { held, log } = state;
    let (ledger, reply) = held.ledger.into_value().rewards(update)?;
    let after = given(alloc, ledger, log, old, &reply)?;
    Ok((after, Outcome::Answered(reply)))
}

/// The ledger after a reward update with this reply; these are the old values.
fn given(
    alloc: Global,
    ledger: LedgerState,
    log: UndoLog,
    old: Before,
    reply: &Reply,
) -> Result<Followed, NoMemory>
    ensures ledger { IfOk result (λ s. s.held.ledger ≡ ledger) }
    ensures log { IfOk result (λ s. s.log ≡ logged_by reply.now old log) }
{
    match reply {
        Reply::Accepted | Reply::AcceptedFailedScripts => {
            Followed::logged(alloc, ledger, log, old)
        }
        Reply::Refused(_) => {
            drop(old);
            Followed::of_parts(alloc, ledger, log)
        }
    }
}
