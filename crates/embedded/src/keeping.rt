//! What a line says, and the state and the text after it.
ghost use Rattle.std.specs.Prelude.{◌≡◌, Err, IfOk, IfSome, Some, true};
ghost use Rattle.embedded.specs.Standing.{Begun, after_line, after_reading, said_by, start_fault_of};
ghost use Rattle.embedded.specs.Verdicts.{verdict_text};
ghost use Rattle.record_stream.specs.Records.{is_within};
ghost use Rattle.replay_loop.specs.Outcomes.{outcome_text};

use crate::state::SessionState;
use byte_lines::{MemorySink, SinkFault, put_all};
use hash_seed::HashSeed;
use no_memory::NoMemory;
use record_stream::of_record_read::Scratch;
use record_stream::read_line;
use replay_loop::{AnswerFault, GenesisCause, Outcome, RunState, Teller, TextTeller};
use std::alloc::Global;
use tx_records::Reading;
use tx_records::limits::LINE_LIMIT;

/// What a line says; nothing if it is blank.
pub(crate) fn read(
    alloc: Global,
    scratch: &mut Scratch,
    line: &[u8],
) -> Result<Option<Reading>, NoMemory>
    ensures says { IfOk result (λ said. said ≡ said_by line.now) }
    ensures within { IfOk result (λ said. IfSome said (λ reading. is_within reading ≡ true)) }
{
    if line.len() <= LINE_LIMIT as usize {
        read_line(alloc, scratch, line)
    } else {
        Ok(Some(Reading::TooLong))
    }
}

/// The text of an outcome over the state after it, under the number of its line.
fn text_of<R: RunState + Drop>(
    alloc: Global,
    state: &R,
    outcome: Outcome,
    number: u64,
) -> Result<MemorySink, SinkFault>
    ensures { IfOk result (λ text. text ≡ outcome_text number (R.world state.now) outcome) }
{
    let mut page = MemorySink::new(alloc);
    let mut batch = Vec::new(alloc);
    let mut teller = TextTeller::new(alloc);
    teller.tell(state, outcome, number, &mut batch, &mut page)?;
    put_all(&mut page, &batch)?;
    Ok(page)
}

/// The state and the text after what was read of the line of this number.
fn after_read<R: SessionState + Drop>(
    alloc: Global,
    seed: HashSeed,
    before: R,
    number: u64,
    reading: &Reading,
) -> Result<(R, MemorySink), NoMemory>
    requires within { is_within reading.now ≡ true }
    ensures { IfOk result (λ r. record { world = Some (R.world r.0); line = number; text = r.1 } ≡
        after_reading (R.world before) number (Some reading.now)) }
{
    let Ok((after, outcome)) = R::answer_alone(alloc, seed, Some(before), reading) else {
        return Err(NoMemory);
    };
    match text_of(alloc, &after, outcome, number) {
        Ok(text) => Ok((after, text)),
        Err(_) => {
            drop(after);
            Err(NoMemory)
        }
    }
}

/// The state and the text after the line of this number.
pub(crate) fn after<R: SessionState + Drop>(
    alloc: Global,
    seed: HashSeed,
    scratch: &mut Scratch,
    before: R,
    number: u64,
    line: &[u8],
) -> Result<(R, MemorySink), NoMemory>
    ensures { IfOk result (λ r. record { world = Some (R.world r.0); line = number; text = r.1 } ≡
        after_line (R.world before) number line.now) }
{
    match read(alloc, scratch, line) {
        Ok(Some(reading)) => after_read(alloc, seed, before, number, &reading),
        Ok(None) => Ok((before, MemorySink::new(alloc))),
        Err(fault) => {
            drop(before);
            Err(fault)
        }
    }
}

/// The text of the verdict on what was read of the line of this number.
fn judged_read<R: SessionState + Drop>(
    alloc: Global,
    state: &R,
    number: u64,
    reading: &Reading,
) -> Result<MemorySink, NoMemory>
    requires within { is_within reading.now ≡ true }
    ensures { IfOk result (λ text. text ≡ verdict_text (R.world state.now) number (Some reading.now)) }
{
    let reply = state.reply_alone(alloc, reading)?;
    match text_of(alloc, state, Outcome::Answered(reply), number) {
        Ok(text) => Ok(text),
        Err(_) => Err(NoMemory),
    }
}

/// The text of the verdict on the line of this number.
pub(crate) fn judged<R: SessionState + Drop>(
    alloc: Global,
    scratch: &mut Scratch,
    state: &R,
    number: u64,
    line: &[u8],
) -> Result<MemorySink, NoMemory>
    ensures { IfOk result (λ text. text ≡ verdict_text (R.world state.now) number (said_by line.now)) }
{
    match read(alloc, scratch, line)? {
        Some(reading) => judged_read(alloc, state, number, &reading),
        None => Ok(MemorySink::new(alloc)),
    }
}

/// The state and the text of the genesis on the line of this number, or why there is no state.
pub(crate) fn begin<R: SessionState + Drop>(
    alloc: Global,
    seed: HashSeed,
    scratch: &mut Scratch,
    number: u64,
    line: &[u8],
) -> Result<(R, MemorySink), AnswerFault>
    ensures begun { IfOk result (λ r. Begun number line.now (record { world = Some (R.world r.0); line = number; text = r.1 })) }
    ensures bad { (cause : GenesisCause) → result ≡ Err (AnswerFault.BadGenesis cause) → start_fault_of (said_by line.now) ≡ Some cause }
{
    let Some(reading) = read(alloc, scratch, line)? else {
        return Err(AnswerFault::BadGenesis(GenesisCause::Missing));
    };
    let (state, outcome) = R::answer_alone(alloc, seed, None, &reading)?;
    match text_of(alloc, &state, outcome, number) {
        Ok(text) => Ok((state, text)),
        Err(_) => {
            drop(state);
            Err(AnswerFault::NoMemory)
        }
    }
}
