ghost use Rattle.std.specs.Prelude.{◌≡◌, ◌+◌, ◌-◌, IfOk};
ghost use Rattle.resume_loop.specs.Plays.{resume_result};

use crate::fault::NoCheckpoint;
use byte_lines::Sink;
use line_runs::{LineCommand, RunFault};
use no_memory::NoMemory;
use replay_loop::{Answered, GenesisCause, Records, RunState, TextTeller};
use tx_records::Reading;

/// The records after a checkpoint. The line behind it has the number after the checkpoint's line.
#[derive(Drop)]
pub(crate) struct Renumbered<
    'a,
    R: RunState + Drop,
    F: Fn(u32, Option<R>, Reading) -> Answered<R>,
> {
    pub(crate) records: Records<'a, R, TextTeller, F>,
    // how many lines the checkpoint has, and the line after which it was made
    pub(crate) passed: u64,
    pub(crate) line: u64,
}

/// The number of a line behind `passed` ones, counted from `line` on.
fn number_after(number: u64, passed: u64, line: u64) -> Result<u64, NoMemory>
    ensures { IfOk result (λ n. n ≡ (number - passed) + line) }
{
    match number.saturating_sub(passed).checked_add(line) {
        Some(counted) => Ok(counted),
        // (no stream has so many lines)
        None => Err(NoMemory),
    }
}

/// What the records come to: there is a state, so none of them stops the run.
fn resumed(ended: Result<(), RunFault<GenesisCause>>) -> Result<(), RunFault<NoCheckpoint>>
    ensures { result ≡ resume_result ended }
{
    match ended {
        Ok(()) => Ok(()),
        Err(RunFault::Stop(_)) => Err(RunFault::Stop(NoCheckpoint)),
        Err(RunFault::ReadFault) => Err(RunFault::ReadFault),
        Err(RunFault::WriteFault) => Err(RunFault::WriteFault),
        Err(RunFault::NoMemory) => Err(RunFault::NoMemory),
        Err(RunFault::TooMuch) => Err(RunFault::TooMuch),
    }
}

impl<R: RunState + Drop, F: Fn(u32, Option<R>, Reading) -> Answered<R>> LineCommand
    for Renumbered<'_, R, F> {
    ghost use Rattle.std.specs.Prelude.{◌≡◌, ◌≤◌, Some, option_map};
    ghost use Rattle.replay_loop.specs.Answers.{AnswersEach};
    ghost use Rattle.resume_loop.specs.Plays.{Resumed, resumed_play};
    ghost use Rattle.tx_records.specs.declared.record.Reading.{Reading};

    type Cause = NoCheckpoint;

    ghost Said = { Reading };

    ghost Stand = { Resumed };

    ghost play = { resumed_play };

    ghost can = { λ c. AnswersEach R.world (F.pre c.records.answer.now) (F.post c.records.answer.now) × (1 ≤ c.records.workers) × (c.records.workers ≤ 64) };

    ghost stands = { λ c s. (option_map R.world c.records.state ≡ Some s.world) × (c.passed ≡ s.passed) × (c.line ≡ s.line) };

    fn line<K: Sink>(
        &mut self,
        number: u64,
        line: Option<&[u8]>,
        batch: &mut Vec<u8>,
        sink: &mut K,
    ) -> Result<(), RunFault<NoCheckpoint>> {
        let counted = number_after(number, self.passed, self.line)?;
        resumed(self.records.line(counted, line, batch, sink))
    }

    fn end<K: Sink>(
        &mut self,
        number: u64,
        batch: &mut Vec<u8>,
        sink: &mut K,
    ) -> Result<(), RunFault<NoCheckpoint>> {
        let counted = number_after(number, self.passed, self.line)?;
        resumed(self.records.end(counted, batch, sink))
    }
}
