//! Records of any kind: applied in one thread they are answered as with workers.
use crate::cases::QUICK;
use crate::epochs::{text_of, wanted};
use crate::lines::{Line, bytes_of};
use crate::state::{Changed, Stop, WORKERS, add_lines, begun};
use ledger_state::LedgerState;
use no_memory::NoMemory;
use par_count::OpenGate;
use record_read::read_record;
use record_rule::{Applied, apply_record, apply_record_alone};
use report::reply_line;
use std::alloc::Global;
use std::test::Fail;
use std::thread::Threads;
use tx_records::{EpochReport, Pots, Record, Reply};

/// A state after a record, its reply, and the report of the boundary that it crossed.
type Answer<S> = Result<(S, Reply, Option<EpochReport>), Stop>;

/// Records over QUICK. Two blocks cross a boundary, and the second enacts what was proposed.
const LINES: [Line; 7] = [
    Line::Tx(
        "2",
        r#","fee":10,"proposals":[{"deposit":10,"return":"1k_12","action":{"type":"NewConstitution","document":"^02"}}]"#,
    ),
    Line::Tx("2", ""),
    Line::Record(r#"{"kind":"block","slot":10,"pulse":1}"#),
    Line::Record(r#"{"kind":"block","slot":10,"pulse":1}"#),
    Line::Record(r#"{"kind":"print","what":"pots"}"#),
    Line::Record(r#"{"kind":"block","slot":20,"pulse":1}"#),
    QUICK,
];

/// Their replies, with the text of each boundary behind the reply of its block.
const TOLD: [&str; 17] = [
    "accepted",
    "refused 30 TxIdUsed",
    "accepted",
    "epoch 1 frozen 3 dormant 0",
    "stake k_30 67",
    "stake k_31 33",
    "pots outputs 180 deposits 31 rewards 100 fees 10 donations 0 treasury 100 reserves 579 supply 1000",
    "refused 10 SlotNotLater last 10",
    "accepted",
    "accepted",
    "epoch 2 frozen 3 dormant 1",
    "stake k_30 67",
    "stake k_31 33",
    "tally ^02#0 NewConstitution committee 0/1 need 0/1 drep 0/100 need 0/1 pool 0/0 need none ratified",
    "removed ^02#0 enacted refund 10 1k_12",
    "pots outputs 180 deposits 21 rewards 110 fees 10 donations 0 treasury 100 reserves 579 supply 1000",
    "refused 3 GenesisAgain",
];

/// What is left of an applied record.
fn parts(applied: Applied) -> (LedgerState, Reply, Option<EpochReport>) {
    (applied.ledger, applied.reply, applied.report)
}

/// The answer to a record whose boundary workers share.
fn by_workers<R: Threads + Sync>(
    alloc: Global,
    rt: &R,
    s: LedgerState,
    found: &Record,
) -> Answer<LedgerState> {
    match found.is_within_limits(alloc) {
        Ok(true) => Ok(parts(apply_record(alloc, rt, s, found, WORKERS, &OpenGate)?)),
        Ok(false) | Err(_) => {
            drop(s);
            Err(Stop::NotTaken)
        }
    }
}

/// The answer to a record in this thread.
fn alone(alloc: Global, s: LedgerState, found: &Record) -> Answer<LedgerState> {
    match found.is_within_limits(alloc) {
        Ok(true) => Ok(parts(apply_record_alone(alloc, s, found)?)),
        Ok(false) | Err(_) => {
            drop(s);
            Err(Stop::NotTaken)
        }
    }
}

/// The line of a reply, and the text of the boundary that its record crossed.
fn answer_text(
    alloc: Global,
    reply: &Reply,
    report: Option<&EpochReport>,
    pots: &Pots,
) -> Result<Vec<u8>, NoMemory> {
    let mut text = Vec::new(alloc);
    reply_line(&mut text, 1, reply)?;
    if let Some(report) = report {
        let lines = text_of(alloc, report, pots)?;
        text.extend_from_slice(lines.as_slice())?;
    }
    Ok(text)
}

/// The state after a line, and the text of its answer.
fn after_line<S: Changed + Drop, F: Fn(S, &Record) -> Answer<S>>(
    alloc: Global,
    applied: &F,
    s: S,
    line: Line,
) -> Result<(S, Vec<u8>), Stop>
    requires { F.IsAlwaysCallable applied.now }
{
    let bytes = bytes_of(alloc, line)?;
    let record = read_record(alloc, bytes.as_slice())?;
    let (next, reply, report) = applied(s, &record)?;
    let text = answer_text(alloc, &reply, report.as_ref(), &next.pots())?;
    Ok((next, text))
}

/// The texts of the answers to these lines over QUICK.
fn told<S: Changed + Drop, F: Fn(S, &Record) -> Answer<S>>(
    alloc: Global,
    applied: &F,
) -> Result<Vec<u8>, Stop>
    requires { F.IsAlwaysCallable applied.now }
{
    let mut s: S = begun(alloc, QUICK)?;
    let mut text = Vec::new(alloc);
    for line in LINES {
        let (next, lines) = after_line(alloc, applied, s, line)?;
        s = next;
        add_lines(&mut text, &[lines])?;
    }
    Ok(text)
}

#[test]
fn records_are_answered_alone_as_with_workers(rt: HostRuntime) -> Result<(), Fail> {
    let with_workers = |s: LedgerState, found: &Record| by_workers(rt.alloc(), &rt, s, found);
    let by_one = |s: LedgerState, found: &Record| alone(rt.alloc(), s, found);
    let want = wanted(rt.alloc(), &TOLD)?;
    let shared = told(rt.alloc(), &with_workers)?;
    let own = told(rt.alloc(), &by_one)?;
    assert_eq!(&rt; shared.as_slice(), want.as_slice(), "with workers");
    assert_eq!(&rt; own.as_slice(), want.as_slice(), "in one thread");
    Ok(())
}
