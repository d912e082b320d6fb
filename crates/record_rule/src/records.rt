ghost use Rattle.std.specs.Prelude.{◌≡◌, ◌≤◌, IfOk, None, true};
ghost use Rattle.record_rule.specs.Reports.{report_of_record};
ghost use Rattle.run_model.specs.Step.{step};
ghost use Rattle.tx_records.specs.RecordLimits.{is_within_limits};
ghost use Rattle.tx_records.specs.Rules.{plain_rule};
ghost use Rattle.tx_records.specs.declared.record.Record.TheVariants as records;
ghost use Rattle.tx_records.specs.declared.reply.Reply.TheVariants.{Refused};
ghost use Rattle.tx_records.specs.declared.rules.TheConstants.{GENESIS_AGAIN};

use crate::applied::Applied;
use crate::blocks::{apply_block, apply_block_alone};
use epoch_rule::of_ledger_state::LedgerState;
use epoch_rule::of_par_count::Gate;
use no_memory::NoMemory;
use std::alloc::Global;
use std::thread::Threads;
use tx_records::rules::GENESIS_AGAIN;
use tx_records::{Record, Reply, Rewards, Rule, Tx};
use tx_rule::apply_tx;

/// Applies a record: the ledger after it, its reply, and the report of a crossed boundary. Refused
/// records and prints change nothing. Workers, in `rt`'s threads, enter the gate and share counts.
/// `NoMemory`: no ledger remains. (LEDGERS, TICK and NEWEPOCH of the formal specification)
pub fn apply_record<R: Threads + Sync, G: Gate + Sync>(
    alloc: Global,
    rt: &R,
    ledger: LedgerState,
    found: &Record,
    workers: u32,
    gate: &G,
) -> Result<Applied, NoMemory>
    requires within { is_within_limits found.now ≡ true }
    requires some { 1 ≤ workers }
    requires few { workers ≤ 64 }
    ensures stepped { IfOk result (λ a. (a.ledger, a.reply) ≡ step ledger found.now) }
    ensures report { IfOk result (λ a. a.report ≡ report_of_record ledger found.now) }
{
    match found {
        Record::Block { slot, pulse } => {
            apply_block(alloc, rt, ledger, *slot, *pulse, workers, gate)
        }
        Record::Rewards(update) => apply_rewards(ledger, update),
        Record::Tx(tx) => apply_transaction(alloc, ledger, tx.get()),
        Record::Genesis(_) => Ok(refuse_genesis(ledger)),
        Record::Print(_) => Ok(Applied::within_epoch(ledger, Reply::Accepted)),
    }
}

/// Applies a record as `apply_record` does, in this thread.
/// `NoMemory`: no ledger remains. (LEDGERS, TICK and NEWEPOCH of the formal specification)
pub fn apply_record_alone(
    alloc: Global,
    ledger: LedgerState,
    found: &Record,
) -> Result<Applied, NoMemory>
    requires within { is_within_limits found.now ≡ true }
    ensures stepped { IfOk result (λ a. (a.ledger, a.reply) ≡ step ledger found.now) }
    ensures report { IfOk result (λ a. a.report ≡ report_of_record ledger found.now) }
{
    match found {
        Record::Block { slot, pulse } => apply_block_alone(alloc, ledger, *slot, *pulse),
        Record::Rewards(update) => apply_rewards(ledger, update),
        Record::Tx(tx) => apply_transaction(alloc, ledger, tx.get()),
        Record::Genesis(_) => Ok(refuse_genesis(ledger)),
        Record::Print(_) => Ok(Applied::within_epoch(ledger, Reply::Accepted)),
    }
}

/// Keeps a reward update until the boundary.
fn apply_rewards(ledger: LedgerState, update: &Rewards) -> Result<Applied, NoMemory>
    requires within { is_within_limits (records.Rewards update.now) ≡ true }
    ensures stepped { IfOk result (λ a. (a.ledger, a.reply) ≡ step ledger (records.Rewards update.now)) }
    ensures report { IfOk result (λ a. a.report ≡ report_of_record ledger (records.Rewards update.now)) }
{
    let (after, reply) = ledger.rewards(update)?;
    Ok(Applied::within_epoch(after, reply))
}

/// Applies a transaction.
fn apply_transaction(alloc: Global, ledger: LedgerState, tx: &Tx) -> Result<Applied, NoMemory>
    requires within { is_within_limits (records.Tx tx.now) ≡ true }
    ensures stepped { IfOk result (λ a. (a.ledger, a.reply) ≡ step ledger (records.Tx tx.now)) }
    ensures report { IfOk result (λ a. a.report ≡ report_of_record ledger (records.Tx tx.now)) }
{
    let (after, reply) = apply_tx(alloc, ledger, tx)?;
    Ok(Applied::within_epoch(after, reply))
}

/// Refuses a genesis that follows the first record.
fn refuse_genesis(ledger: LedgerState) -> Applied
    ensures { result ≡ record { ledger = ledger; reply = Refused (plain_rule GENESIS_AGAIN); report = None } }
{
    let again = Reply::Refused(Rule::new(GENESIS_AGAIN));
    Applied::within_epoch(ledger, again)
}
