ghost use Rattle.std.specs.Prelude.{◌≡◌, ◌≤◌, IfOk, false, option_map, true};
ghost use Rattle.held_ledger.specs.Applied.{AppliesEach, applied_block_outcome, applied_outcome, is_print};
ghost use Rattle.held_ledger.specs.Faults.{fault_of_genesis};
ghost use Rattle.replay_loop.specs.Answers.{AnswersAs, Begins, BeginsWith, Judges};
ghost use Rattle.ledger_model.specs.Supply.{pots_of};
ghost use Rattle.record_rule.specs.Reports.{report_of_record};
ghost use Rattle.record_stream.specs.Records.{is_within};
ghost use Rattle.run_model.specs.Step.{step};
ghost use Rattle.tx_records.specs.GenesisLimits as genesis_limits;
ghost use Rattle.tx_records.specs.RecordLimits.{is_within_limits};
ghost use Rattle.text_model.specs.Runs.{line_rule};
ghost use Rattle.tx_records.specs.declared.record.Reading.TheVariants.{Read};
ghost use Rattle.tx_records.specs.Rules.{plain_rule};

use crate::crew::Crew;
use crate::held::Held;
use hash_seed::HashSeed;
use listed::Boxed;
use no_memory::NoMemory;
use record_rule::of_par_count::Gate;
use record_rule::{Applied, apply_record, apply_record_alone};
use replay_loop::{AnswerFault, Answered, GenesisCause, Outcome};
use report::PotsWord;
use shortfall::of_ledger_state::LedgerState;
use shortfall::of_live_ledger::GenesisFault;
use std::alloc::Global;
use std::thread::Threads;
use tx_records::rules::{GENESIS_AGAIN, MALFORMED, TOO_LONG};
use tx_records::{EpochReport, FieldName, Genesis, Reading, Record, Reply, Rule, What};

/// A ledger is moved from record to record as a pointer.
type Judged = Result<(Boxed<LedgerState>, Outcome), NoMemory>;

/// Why there is no answer where a genesis gave no ledger.
fn fault_of(fault: GenesisFault) -> AnswerFault
    ensures { result ≡ fault_of_genesis fault }
{
    match fault {
        GenesisFault::Broken(rule) => AnswerFault::BadGenesis(GenesisCause::Broken(rule)),
        GenesisFault::NoMemory => AnswerFault::NoMemory,
    }
}

/// The ledger of a genesis, and its pots.
fn begun(alloc: Global, ledger: LedgerState) -> Judged
    ensures ledger { IfOk result (λ r. r.0 ≡ ledger) }
    ensures pots { IfOk result (λ r. r.1 ≡ Outcome.Pots PotsWord.Genesis (pots_of ledger.ledger)) }
{
    let pots = ledger.pots();
    let held = Boxed::new(alloc, ledger)?;
    Ok((held, Outcome::Pots(PotsWord::Genesis, pots)))
}

/// The ledger of a genesis that breaks no rule, its first epoch counted by workers, and its pots.
fn begin(
    alloc: Global,
    seed: HashSeed,
    genesis: &Genesis,
    workers: u32,
) -> Answered<Boxed<LedgerState>>
    requires within { genesis_limits.is_within_limits genesis.now ≡ true }
    requires some { 1 ≤ workers }
    requires few { workers ≤ 64 }
    ensures { Begins genesis.now result }
{
    match LedgerState::from_genesis(alloc, seed, genesis, workers) {
        Ok(ledger) => Ok(begun(alloc, ledger)?),
        Err(fault) => Err(fault_of(fault)),
    }
}

/// The ledger and the pots of what was read first, or why there is no ledger to begin with.
fn begin_with(
    alloc: Global,
    seed: HashSeed,
    reading: &Reading,
    workers: u32,
) -> Answered<Boxed<LedgerState>>
    requires within { is_within reading.now ≡ true }
    requires some { 1 ≤ workers }
    requires few { workers ≤ 64 }
    ensures { BeginsWith reading.now result }
{
    let cause = match reading {
        Reading::Read(Record::Genesis(genesis)) => return begin(
            alloc,
            seed,
            genesis.get(),
            workers,
        ),
        Reading::Read(
            Record::Block { .. } | Record::Rewards(_) | Record::Tx(_) | Record::Print(_),
        ) => GenesisCause::NoGenesis,
        Reading::Malformed { what, place } => GenesisCause::Malformed {
            what: *what,
            place: *place,
        },
        Reading::TooLong => GenesisCause::TooLong,
    };
    Err(AnswerFault::BadGenesis(cause))
}

/// The refusal by a rule that keeps nothing.
fn refused(number: u16) -> Outcome
    ensures { result ≡ Outcome.Answered (Reply.Refused (plain_rule number)) }
{
    Outcome::Answered(Reply::Refused(Rule::new(number)))
}

/// The refusal of a line that gave no record.
fn malformed(what: FieldName, place: Option<u32>) -> Outcome
    ensures { result ≡ Outcome.Answered (Reply.Refused (line_rule MALFORMED (Some what) place)) }
{
    Outcome::Answered(Reply::Refused(Rule {
        what: Some(what),
        place,
        ..Rule::new(MALFORMED)
    }))
}

/// The outcome of a print; it changes nothing.
fn judge_print(ledger: Boxed<LedgerState>, what: What) -> (Boxed<LedgerState>, Outcome)
    ensures { Judges ledger (Read (Record.Print what)) (Ok result) }
{
    match what {
        What::Pots => {
            let pots = ledger.get().pots();
            (ledger, Outcome::Pots(PotsWord::Pots, pots))
        }
        What::State => (ledger, Outcome::State),
        What::Assets => (ledger, Outcome::Assets),
    }
}

/// The ledger after a record that is no print, which `apply` applies, and its outcome.
fn judge_applied<F: Fn(LedgerState, &Record) -> Result<Applied, NoMemory>>(
    alloc: Global,
    apply: &F,
    ledger: Boxed<LedgerState>,
    found: &Record,
) -> Judged
    requires applies { AppliesEach (λ r. r.now) (F.pre apply.now) (F.post apply.now) }
    requires within { is_within_limits found.now ≡ true }
    requires no_print { is_print found.now ≡ false }
    ensures { Judges ledger (Read found.now) result }
{
    let applied = apply(ledger.into_value(), found)?;
    let held = Boxed::new(alloc, applied.ledger)?;
    let outcome = outcome_over(held.get(), found, applied.reply, applied.report);
    Ok((held, outcome))
}

/// The outcome of a record that is no print, over the ledger that it left.
fn outcome_over(
    after: &LedgerState,
    found: &Record,
    reply: Reply,
    report: Option<EpochReport>,
) -> Outcome
    ensures { result ≡ applied_outcome after.now found.now reply report }
{
    match found {
        Record::Block { .. } => block_outcome(after, reply, report),
        Record::Genesis(_) | Record::Rewards(_) | Record::Tx(_) | Record::Print(_) => {
            Outcome::Answered(reply)
        }
    }
}

/// The outcome of a block, over the ledger that it left; the pots are as the boundary left them.
fn block_outcome(after: &LedgerState, reply: Reply, report: Option<EpochReport>) -> Outcome
    ensures { result ≡ applied_block_outcome after.now reply report }
{
    match report {
        Some(report) => Outcome::Crossed(report, after.pots()),
        None => match reply {
            Reply::Refused(rule) => Outcome::Answered(Reply::Refused(rule)),
            Reply::Accepted | Reply::AcceptedFailedScripts => Outcome::Block,
        },
    }
}

/// The ledger after a record, and its outcome.
fn judge_record<F: Fn(LedgerState, &Record) -> Result<Applied, NoMemory>>(
    alloc: Global,
    apply: &F,
    ledger: Boxed<LedgerState>,
    found: &Record,
) -> Judged
    requires applies { AppliesEach (λ r. r.now) (F.pre apply.now) (F.post apply.now) }
    requires within { is_within_limits found.now ≡ true }
    ensures { Judges ledger (Read found.now) result }
{
    match found {
        Record::Print(what) => Ok(judge_print(ledger, *what)),
        Record::Genesis(_) | Record::Block { .. } | Record::Rewards(_) | Record::Tx(_) => {
            judge_applied(alloc, apply, ledger, found)
        }
    }
}

/// The ledger after what was read of a line, and its outcome.
fn judge_reading<F: Fn(LedgerState, &Record) -> Result<Applied, NoMemory>>(
    alloc: Global,
    apply: &F,
    ledger: Boxed<LedgerState>,
    reading: &Reading,
) -> Judged
    requires applies { AppliesEach (λ r. r.now) (F.pre apply.now) (F.post apply.now) }
    requires within { is_within reading.now ≡ true }
    ensures { Judges ledger reading.now result }
{
    match reading {
        Reading::Read(record) => judge_record(alloc, apply, ledger, record),
        Reading::Malformed { what, place } => Ok((ledger, malformed(*what, *place))),
        Reading::TooLong => Ok((ledger, refused(TOO_LONG))),
    }
}

/// The ledger after what was read, and its outcome. `apply` applies records.
fn answer_by<F: Fn(LedgerState, &Record) -> Result<Applied, NoMemory>>(
    alloc: Global,
    seed: HashSeed,
    apply: &F,
    workers: u32,
    before: Option<Held>,
    reading: &Reading,
) -> Answered<Held>
    requires applies { AppliesEach (λ r. r.now) (F.pre apply.now) (F.post apply.now) }
    requires within { is_within reading.now ≡ true }
    requires some { 1 ≤ workers }
    requires few { workers ≤ 64 }
    ensures { AnswersAs (λ held. held.ledger) (option_map (λ held. held.ledger) before) reading.now result }
{
    let (ledger, outcome) = match before {
        Some(held) => judge_reading(alloc, apply, held.ledger, reading)?,
        None => begin_with(alloc, seed, reading, workers)?,
    };
    Ok((Held { ledger }, outcome))
}

/// The ledger after what was read, and its outcome; there is no ledger before the genesis.
pub fn answer<T: Threads + Sync, G: Gate + Sync>(
    crew: &Crew<T, G>,
    workers: u32,
    before: Option<Held>,
    reading: &Reading,
) -> Answered<Held>
    requires within { is_within reading.now ≡ true }
    requires some { 1 ≤ workers }
    requires few { workers ≤ 64 }
    ensures { AnswersAs (λ held. held.ledger) (option_map (λ held. held.ledger) before) reading.now result }
{
    let applies = |ledger: LedgerState, found: &Record| -> Result<Applied, NoMemory>
        requires within { is_within_limits found.now ≡ true }
        requires some { 1 ≤ workers }
        requires few { workers ≤ 64 }
        ensures stepped { IfOk result (λ a. (a.ledger, a.reply) ≡ step ledger found.now) }
        ensures report { IfOk result (λ a. a.report ≡ report_of_record ledger found.now) }
    { apply_record(crew.alloc, crew.rt, ledger, found, workers, crew.gate) };
    answer_by(crew.alloc, crew.seed, &applies, workers, before, reading)
}

/// The ledger after what was read, and its outcome, as `answer` gives them, in this thread.
pub fn answer_alone(
    alloc: Global,
    seed: HashSeed,
    before: Option<Held>,
    reading: &Reading,
) -> Answered<Held>
    requires within { is_within reading.now ≡ true }
    ensures { AnswersAs (λ held. held.ledger) (option_map (λ held. held.ledger) before) reading.now result }
{
    let applies = |ledger: LedgerState, found: &Record| -> Result<Applied, NoMemory>
        requires within { is_within_limits found.now ≡ true }
        ensures stepped { IfOk result (λ a. (a.ledger, a.reply) ≡ step ledger found.now) }
        ensures report { IfOk result (λ a. a.report ≡ report_of_record ledger found.now) }
    { apply_record_alone(alloc, ledger, found) };
    answer_by(alloc, seed, &applies, 1, before, reading)
}
