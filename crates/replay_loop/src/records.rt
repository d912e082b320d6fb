ghost use Rattle.std.specs.Prelude.{◌≡◌, ◌≢◌, ◌≤◌, Err, IfOk, IfSome, option_map, true};
ghost use Rattle.std.specs.Option.{option_copied};
ghost use Rattle.byte_lines.specs.Faults.{CountsFaults};
ghost use Rattle.record_stream.specs.Records.{is_within, reading_of_line};
ghost use Rattle.replay_loop.specs.Answers.{AnswersEach};
ghost use Rattle.replay_loop.specs.Turns.{HasToldAhead, IsTurnedTo};
ghost use Rattle.replay_loop.specs.Plays.{ahead_by, answered, last_by, turn_by};

use crate::fault::Answered;
use crate::run_state::RunState;
use crate::status::GenesisCause;
use crate::teller::Teller;
use byte_lines::{Sink, SinkFault};
use line_runs::{LineCommand, RunFault};
use no_memory::NoMemory;
use record_stream::of_record_read::Scratch;
use record_stream::read_line;
use std::alloc::Global;
use tx_records::Reading;

/// A command over the records of a ledger: who answers them, the state, and who tells of them.
#[derive(Drop)]
pub struct Records<
    'a,
    R: RunState + Drop,
    H: Teller<R> + Drop,
    F: Fn(u32, Option<R>, Reading) -> Answered<R>,
> {
    pub alloc: Global,
    pub answer: &'a F,
    pub workers: u32,
    pub state: Option<R>,
    pub teller: H,
    // what reading a line needs, kept from line to line
    pub scratch: Scratch,
}

/// The reading of a line; none if the line is too long.
fn read(
    alloc: Global,
    scratch: &mut Scratch,
    line: Option<&[u8]>,
) -> Result<Option<Reading>, NoMemory>
    ensures says { IfOk result (λ said. said ≡ reading_of_line (option_copied line.entry)) }
    ensures within { IfOk result (λ said. IfSome said (λ reading. is_within reading ≡ true)) }
{
    match line {
        Some(bytes) => read_line(alloc, scratch, bytes),
        None => Ok(Some(Reading::TooLong)),
    }
}

/// Tells what comes ahead of the answer to what was read; before the genesis nothing.
fn tell_ahead<R: RunState, H: Teller<R>, K: Sink>(
    before: &Option<R>,
    reading: &Reading,
    teller: &mut H,
    batch: &mut Vec<u8>,
    sink: &mut K,
) -> Result<(), SinkFault>
    ensures keeps { H.kept teller.new ≡ H.kept teller.old }
    ensures tells { HasToldAhead H.telling (H.kept teller.old) (option_map R.world before.now) reading.now
        (record { taken = K.taken sink.old; batch = batch.old.items })
        (record { taken = K.taken sink.new; batch = batch.new.items }) result }
    ensures counts { CountsFaults (result ≡ Err SinkFault.WriteFault) (K.faults sink.old) (K.faults sink.new) }
{
    match before {
        Some(state) => teller.ahead(state, reading, batch, sink),
        None => Ok(()),
    }
}

/// Answers what was read of the line of this number, reports it, and returns the state after it.
fn turn<R: RunState + Drop, H: Teller<R>, F: Fn(u32, Option<R>, Reading) -> Answered<R>, K: Sink>(
    answer: &F,
    workers: u32,
    before: Option<R>,
    reading: Reading,
    number: u64,
    teller: &mut H,
    batch: &mut Vec<u8>,
    sink: &mut K,
) -> Result<R, RunFault<GenesisCause>>
    requires within { is_within reading ≡ true }
    requires some { 1 ≤ workers }
    requires few { workers ≤ 64 }
    requires answers { AnswersEach R.world (F.pre answer.now) (F.post answer.now) }
    ensures turns { IsTurnedTo R.world (H.kept teller.new)
        (turn_by H.telling (H.kept teller.old) number (ahead_by H.telling (H.kept teller.old) (option_map R.world before) reading)
        (answered (option_map R.world before) reading))
        (record { taken = K.taken sink.old; batch = batch.old.items })
        (record { taken = K.taken sink.new; batch = batch.new.items }) result }
    ensures reads { result ≢ Err RunFault.ReadFault }
    ensures counts { CountsFaults (result ≡ Err RunFault.WriteFault) (K.faults sink.old) (K.faults sink.new) }
{
    tell_ahead(&before, &reading, teller, batch, sink)?;
    let (after, outcome) = answer(workers, before, reading)?;
    teller.tell(&after, outcome, number, batch, sink)?;
    Ok(after)
}

impl<
    R: RunState + Drop,
    H: Teller<R> + Drop,
    F: Fn(u32, Option<R>, Reading) -> Answered<R>,
> LineCommand for Records<'_, R, H, F> {
    ghost use Rattle.std.specs.Prelude.{◌≡◌, ◌≤◌, option_map};
    ghost use Rattle.replay_loop.specs.Answers.{AnswersEach};
    ghost use Rattle.replay_loop.specs.Plays.{Stood, play_of};
    ghost use Rattle.tx_records.specs.declared.record.Reading.{Reading};

    type Cause = GenesisCause;

    ghost Said = { Reading };

    ghost Stand = { Stood H.Kept };

    ghost play = { play_of H.telling };

    ghost can = { λ c. AnswersEach R.world (F.pre c.answer.now) (F.post c.answer.now) × (1 ≤ c.workers) × (c.workers ≤ 64) };

    ghost stands = { λ c s. s ≡ record { state = option_map R.world c.state; kept = H.kept c.teller } };

    fn line<K: Sink>(
        &mut self,
        number: u64,
        line: Option<&[u8]>,
        batch: &mut Vec<u8>,
        sink: &mut K,
    ) -> Result<(), RunFault<GenesisCause>> {
        match read(self.alloc, &mut self.scratch, line)? {
            None => Ok(()),
            Some(reading) => {
                let before = self.state.take();
                let after = turn(
                    self.answer,
                    self.workers,
                    before,
                    reading,
                    number,
                    &mut self.teller,
                    batch,
                    sink,
                )?;
                self.state = Some(after);
                Ok(())
            }
        }
    }

    fn end<K: Sink>(
        &mut self,
        number: u64,
        batch: &mut Vec<u8>,
        sink: &mut K,
    ) -> Result<(), RunFault<GenesisCause>> {
        match self.state.take() {
            Some(last) => {
                self.teller.close(last, number, batch, sink)?;
                Ok(())
            }
            None => Err(RunFault::Stop(GenesisCause::Missing)),
        }
    }
}
