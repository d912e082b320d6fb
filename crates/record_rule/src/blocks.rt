ghost use Rattle.std.specs.Prelude.{◌≡◌, ◌<◌, ◌≤◌, ◌^◌, IfOk, None, Some, false, true};
ghost use Rattle.ledger_model.specs.Checks.{first_among};
ghost use Rattle.record_rule.specs.Reports.{report_of_record};
ghost use Rattle.run_model.specs.Step.{block_checks, enters_next, step};
ghost use Rattle.tx_records.specs.declared.record.Record.TheVariants as records;

use crate::applied::Applied;
use epoch_rule::of_ledger_state::LedgerState;
use epoch_rule::of_par_count::Gate;
use epoch_rule::{cross, cross_alone};
use no_memory::NoMemory;
use std::alloc::Global;
use std::thread::Threads;
use tx_records::{EpochReport, Reply};

/// Applies a block. One of the next epoch that breaks no rule crosses the boundary first.
/// (TICK and NEWEPOCH of the formal specification)
pub(crate) fn apply_block<R: Threads + Sync, G: Gate + Sync>(
    alloc: Global,
    rt: &R,
    ledger: LedgerState,
    slot: u64,
    pulse: u32,
    workers: u32,
    gate: &G,
) -> Result<Applied, NoMemory>
    requires early { slot < 2 ^ 62 }
    requires some { 1 ≤ workers }
    requires few { workers ≤ 64 }
    ensures stepped { IfOk result (λ a. (a.ledger, a.reply) ≡ step ledger (records.Block slot pulse)) }
    ensures report { IfOk result (λ a. a.report ≡ report_of_record ledger (records.Block slot pulse)) }
{
    match ledger.check_block(slot, pulse) {
        Ok(true) => apply_first_of_epoch(alloc, rt, ledger, slot, pulse, workers, gate),
        Ok(false) => Ok(apply_within(ledger, slot, pulse)),
        Err(rule) => Ok(Applied::within_epoch(ledger, Reply::Refused(rule))),
    }
}

/// Applies a block as `apply_block` does, in this thread.
pub(crate) fn apply_block_alone(
    alloc: Global,
    ledger: LedgerState,
    slot: u64,
    pulse: u32,
) -> Result<Applied, NoMemory>
    requires early { slot < 2 ^ 62 }
    ensures stepped { IfOk result (λ a. (a.ledger, a.reply) ≡ step ledger (records.Block slot pulse)) }
    ensures report { IfOk result (λ a. a.report ≡ report_of_record ledger (records.Block slot pulse)) }
{
    match ledger.check_block(slot, pulse) {
        Ok(true) => apply_first_of_epoch_alone(alloc, ledger, slot, pulse),
        Ok(false) => Ok(apply_within(ledger, slot, pulse)),
        Err(rule) => Ok(Applied::within_epoch(ledger, Reply::Refused(rule))),
    }
}

/// Applies a block of the current epoch that breaks no rule.
fn apply_within(ledger: LedgerState, slot: u64, pulse: u32) -> Applied
    requires early { slot < 2 ^ 62 }
    requires unbroken { first_among (block_checks ledger.ledger slot pulse) ≡ None }
    requires stays { enters_next ledger.ledger slot ≡ false }
    ensures stepped { (result.ledger, result.reply) ≡ step ledger (records.Block slot pulse) }
    ensures report { result.report ≡ report_of_record ledger (records.Block slot pulse) }
{
    let (after, reply) = ledger.block(slot, pulse);
    Applied::within_epoch(after, reply)
}

/// Applies a block of the next epoch that breaks no rule.
fn apply_first_of_epoch<R: Threads + Sync, G: Gate + Sync>(
    alloc: Global,
    rt: &R,
    ledger: LedgerState,
    slot: u64,
    pulse: u32,
    workers: u32,
    gate: &G,
) -> Result<Applied, NoMemory>
    requires early { slot < 2 ^ 62 }
    requires unbroken { first_among (block_checks ledger.ledger slot pulse) ≡ None }
    requires enters { enters_next ledger.ledger slot ≡ true }
    requires some { 1 ≤ workers }
    requires few { workers ≤ 64 }
    ensures stepped { IfOk result (λ a. (a.ledger, a.reply) ≡ step ledger (records.Block slot pulse)) }
    ensures report { IfOk result (λ a. a.report ≡ report_of_record ledger (records.Block slot pulse)) }
{
    let (crossed, report) = cross(alloc, rt, ledger, workers, gate)?;
    Ok(apply_crossed(crossed, report, slot, pulse))
}

/// Applies a block of the next epoch that breaks no rule, in this thread.
fn apply_first_of_epoch_alone(
    alloc: Global,
    ledger: LedgerState,
    slot: u64,
    pulse: u32,
) -> Result<Applied, NoMemory>
    requires early { slot < 2 ^ 62 }
    requires unbroken { first_among (block_checks ledger.ledger slot pulse) ≡ None }
    requires enters { enters_next ledger.ledger slot ≡ true }
    ensures stepped { IfOk result (λ a. (a.ledger, a.reply) ≡ step ledger (records.Block slot pulse)) }
    ensures report { IfOk result (λ a. a.report ≡ report_of_record ledger (records.Block slot pulse)) }
{
    let (crossed, report) = cross_alone(alloc, ledger)?;
    Ok(apply_crossed(crossed, report, slot, pulse))
}

/// Applies the first block of an epoch, to the ledger that its boundary left and with its report.
fn apply_crossed(crossed: LedgerState, report: EpochReport, slot: u64, pulse: u32) -> Applied
    requires early { slot < 2 ^ 62 }
    requires begun { enters_next crossed.ledger slot ≡ false }
    ensures stepped { (result.ledger, result.reply) ≡ step crossed (records.Block slot pulse) }
    ensures report { result.report ≡ Some report }
{
    let (after, reply) = crossed.block(slot, pulse);
    Applied {
        ledger: after,
        reply,
        report: Some(report),
    }
}
