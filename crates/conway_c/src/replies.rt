//! The reply that a record would get, by rules that change nothing.
ghost use Rattle.std.specs.Prelude.{◌≡◌, IfOk, true};
ghost use Rattle.embedded.specs.Verdicts.{reply_to};
ghost use Rattle.record_stream.specs.Records.{is_within};
ghost use Rattle.run_model.specs.Step.{step};
ghost use Rattle.tx_records.specs.RecordLimits.{is_within_limits};
ghost use Rattle.tx_records.specs.TxLimits as tx_limits;
ghost use Rattle.tx_records.specs.declared.record.Record.TheVariants as records;

use no_memory::NoMemory;
use std::alloc::Global;
use tx_records::rules::{GENESIS_AGAIN, MALFORMED, TOO_LONG};
use tx_records::{Reading, Record, Reply, Rewards, Rule, Tx, TxFault};
use tx_rule::of_ledger_state::LedgerState;
use tx_rule::{accepted_as, judge};

/// To a block.
fn reply_to_block(ledger: &LedgerState, slot: u64, pulse: u32) -> Reply
    ensures { result ≡ (step ledger.now (records.Block slot pulse)).1 }
{
    match ledger.check_block(slot, pulse) {
        Ok(_) => Reply::Accepted,
        Err(rule) => Reply::Refused(rule),
    }
}

/// To a reward update.
fn reply_to_rewards(ledger: &LedgerState, update: &Rewards) -> Reply
    requires within { is_within_limits (records.Rewards update.now) ≡ true }
    ensures { result ≡ (step ledger.now (records.Rewards update.now)).1 }
{
    match ledger.check_rewards(update) {
        Ok(()) => Reply::Accepted,
        Err(rule) => Reply::Refused(rule),
    }
}

/// To a transaction.
fn reply_to_tx(alloc: Global, ledger: &LedgerState, tx: &Tx) -> Result<Reply, NoMemory>
    requires within { tx_limits.is_within_limits tx.now ≡ true }
    ensures { IfOk result (λ reply. reply ≡ (step ledger.now (records.Tx tx.now)).1) }
{
    match judge(alloc, ledger, tx) {
        Ok(()) => Ok(accepted_as(tx.scripts)),
        Err(TxFault::Refused(rule)) => Ok(Reply::Refused(rule)),
        Err(TxFault::NoMemory) => Err(NoMemory),
    }
}

/// To any record.
fn reply_to_record(alloc: Global, ledger: &LedgerState, found: &Record) -> Result<Reply, NoMemory>
    requires within { is_within_limits found.now ≡ true }
    ensures { IfOk result (λ reply. reply ≡ (step ledger.now found.now).1) }
{
    match found {
        Record::Genesis(_) => Ok(Reply::Refused(Rule::new(GENESIS_AGAIN))),
        Record::Block { slot, pulse } => Ok(reply_to_block(ledger, *slot, *pulse)),
        Record::Rewards(update) => Ok(reply_to_rewards(ledger, update)),
        Record::Tx(tx) => reply_to_tx(alloc, ledger, tx.get()),
        Record::Print(_) => Ok(Reply::Accepted),
    }
}

/// To what was read of a line.
pub(crate) fn reply_to_reading(
    alloc: Global,
    ledger: &LedgerState,
    reading: &Reading,
) -> Result<Reply, NoMemory>
    requires within { is_within reading.now ≡ true }
    ensures { IfOk result (λ reply. reply ≡ reply_to ledger.now reading.now) }
{
    match reading {
        Reading::Read(record) => reply_to_record(alloc, ledger, record),
        Reading::Malformed { what, place } => Ok(Reply::Refused(Rule {
            what: Some(*what),
            place: *place,
            ..Rule::new(MALFORMED)
        })),
        Reading::TooLong => Ok(Reply::Refused(Rule::new(TOO_LONG))),
    }
}
