ghost use Rattle.std.specs.Prelude.{◌≡◌, ◌≢◌, ◌≤◌, Err, option_map, true};
ghost use Rattle.byte_lines.specs.Faults.{CountsFaults};
ghost use Rattle.explain_print.specs.of_explain_model.of_record_notes.Seen.{noted_seen};
ghost use Rattle.explain_print.specs.of_explain_model.of_record_notes.of_record_stream.Records.{is_within};
ghost use Rattle.replay_loop.specs.Answers.{AnswersEach};
ghost use Rattle.explain_loop.specs.Plays.{explain_turn};
ghost use Rattle.explain_loop.specs.Turns.{IsExplainedTo, standing_of, told_turn};

use crate::place::Place;
use crate::reading::read;
use crate::state::ExplainedState;
use crate::told::write_noted;
use byte_lines::Sink;
use explain_print::of_explain_model::of_record_notes::{Noted, Scratch};
use line_runs::{LineCommand, RunFault};
use replay_loop::{AnswerFault, Answered, GenesisCause};
use std::alloc::Global;
use std::mem;
use tx_records::Reading;

/// The command: who answers the records of the stream, and how far it is.
#[derive(Drop)]
pub(crate) struct Explain<
    'a,
    R: ExplainedState + Drop,
    F: Fn(u32, Option<R>, Reading) -> Answered<R>,
> {
    pub(crate) alloc: Global,
    pub(crate) answer: &'a F,
    pub(crate) workers: u32,
    pub(crate) place: Place<R>,
    // what reading a line needs, and the line that is written, kept from line to line
    pub(crate) scratch: Scratch,
    pub(crate) text: Vec<u8>,
}

/// Tells what a reading breaks over the state before it, with its notes, and then answers it. What
/// is wrong with the first reading comes too, and where it gives no state nothing can follow it.
fn explain_over<R: ExplainedState + Drop, F: Fn(u32, Option<R>, Reading) -> Answered<R>, K: Sink>(
    alloc: Global,
    answer: &F,
    workers: u32,
    before: Option<R>,
    noted: Noted,
    number: u64,
    text: &mut Vec<u8>,
    batch: &mut Vec<u8>,
    sink: &mut K,
) -> Result<Place<R>, RunFault<GenesisCause>>
    requires within { is_within noted.reading ≡ true }
    requires some { 1 ≤ workers }
    requires few { workers ≤ 64 }
    requires answers { AnswersEach R.world (F.pre answer.now) (F.post answer.now) }
    ensures turns { IsExplainedTo R.world (told_turn (option_map R.world before) number (noted_seen noted))
        (record { taken = K.taken sink.old; batch = batch.old.items })
        (record { taken = K.taken sink.new; batch = batch.new.items }) result }
    ensures reads { result ≢ Err RunFault.ReadFault }
    ensures counts { CountsFaults (result ≡ Err RunFault.WriteFault) (K.faults sink.old) (K.faults sink.new) }
{
    let reading = write_noted(&before, alloc, noted, number, text, batch, sink)?;
    match answer(workers, before, reading) {
        Ok((after, _outcome)) => Ok(Place::Over(after)),
        Err(AnswerFault::BadGenesis(cause)) => Ok(Place::Failed(cause)),
        Err(AnswerFault::NoMemory) => Err(RunFault::NoMemory),
    }
}

/// Explains what was read of the line of this number, and returns how far it is then.
fn turn<R: ExplainedState + Drop, F: Fn(u32, Option<R>, Reading) -> Answered<R>, K: Sink>(
    alloc: Global,
    answer: &F,
    workers: u32,
    before: Place<R>,
    noted: Noted,
    number: u64,
    text: &mut Vec<u8>,
    batch: &mut Vec<u8>,
    sink: &mut K,
) -> Result<Place<R>, RunFault<GenesisCause>>
    requires within { is_within noted.reading ≡ true }
    requires some { 1 ≤ workers }
    requires few { workers ≤ 64 }
    requires answers { AnswersEach R.world (F.pre answer.now) (F.post answer.now) }
    ensures turns { IsExplainedTo R.world (explain_turn (standing_of R.world before) number (noted_seen noted))
        (record { taken = K.taken sink.old; batch = batch.old.items })
        (record { taken = K.taken sink.new; batch = batch.new.items }) result }
    ensures reads { result ≢ Err RunFault.ReadFault }
    ensures counts { CountsFaults (result ≡ Err RunFault.WriteFault) (K.faults sink.old) (K.faults sink.new) }
{
    match before {
        Place::Unbegun => explain_over(
            alloc, answer, workers, None, noted, number, text, batch, sink,
        ),
        Place::Over(state) => explain_over(
            alloc,
            answer,
            workers,
            Some(state),
            noted,
            number,
            text,
            batch,
            sink,
        ),
        Place::Failed(cause) => Err(RunFault::Stop(cause)),
    }
}

impl<R: ExplainedState + Drop, F: Fn(u32, Option<R>, Reading) -> Answered<R>> LineCommand
    for Explain<'_, R, F> {
    ghost use Rattle.std.specs.Prelude.{◌≡◌, ◌≤◌};
    ghost use Rattle.replay_loop.specs.Answers.{AnswersEach};
    ghost use Rattle.explain_print.specs.of_explain_model.of_record_notes.Lines as lines;
    ghost use Rattle.explain_loop.specs.Plays.{Standing, explain_play};
    ghost use Rattle.explain_loop.specs.Turns.{standing_of};

    type Cause = GenesisCause;

    ghost Said = { lines.Noted };

    ghost Stand = { Standing };

    ghost play = { explain_play };

    ghost can = { λ c. AnswersEach R.world (F.pre c.answer.now) (F.post c.answer.now) × (1 ≤ c.workers) × (c.workers ≤ 64) };

    ghost stands = { λ c s. s ≡ standing_of R.world c.place };

    fn line<K: Sink>(
        &mut self,
        number: u64,
        line: Option<&[u8]>,
        batch: &mut Vec<u8>,
        sink: &mut K,
    ) -> Result<(), RunFault<GenesisCause>> {
        match read(self.alloc, &mut self.scratch, line)? {
            None => Ok(()),
            Some(noted) => {
                let before = mem::replace(&mut self.place, Place::Unbegun);
                let after = turn(
                    self.alloc,
                    self.answer,
                    self.workers,
                    before,
                    noted,
                    number,
                    &mut self.text,
                    batch,
                    sink,
                )?;
                self.place = after;
                Ok(())
            }
        }
    }

    fn end<K: Sink>(
        &mut self,
        _number: u64,
        _batch: &mut Vec<u8>,
        _sink: &mut K,
    ) -> Result<(), RunFault<GenesisCause>> {
        match &self.place {
            Place::Unbegun => Err(RunFault::Stop(GenesisCause::Missing)),
            Place::Over(_) => Ok(()),
            Place::Failed(cause) => Err(RunFault::Stop(*cause)),
        }
    }
}
