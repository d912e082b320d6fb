ghost use Rattle.std.specs.Prelude.{◌≡◌, ◌≢◌, ◌≤◌, Err, IfOk, Option, Some, true};
ghost use Rattle.byte_lines.specs.Faults.{CountsFaults};
ghost use Rattle.follow_loop.specs.Answers.{FollowsEach, IsSomewhere};
ghost use Rattle.follow_loop.specs.Plays.{Position, follow_turn};
ghost use Rattle.follow_loop.specs.Readings.{is_reading_within};
ghost use Rattle.follow_loop.specs.Turns.{IsFollowedTo, StandsAt};

use crate::outcome::FollowAnswered;
use crate::reading::read;
use crate::state::FollowState;
use byte_lines::Sink;
use follow_records::FollowReading;
use line_runs::{LineCommand, RunFault};
use record_read::Scratch;
use replay_loop::GenesisCause;
use std::alloc::Global;

// The command: who answers the records of the stream, and the state.
#[derive(Drop)]
pub(crate) struct Follow<
    'a,
    R: FollowState + Drop,
    F: Fn(u32, Option<R>, FollowReading) -> FollowAnswered<R>,
> {
    pub(crate) alloc: Global,
    pub(crate) answer: &'a F,
    pub(crate) workers: u32,
    pub(crate) state: Option<R>,
    // what reading a line needs, and the line that is printed, kept from line to line
    pub(crate) scratch: Scratch,
    pub(crate) text: Vec<u8>,
}

// Answers what was read of the line of this number, reports it, and returns the state after it.
fn turn<R: FollowState + Drop, F: Fn(u32, Option<R>, FollowReading) -> FollowAnswered<R>, K: Sink>(
    answer: &F,
    workers: u32,
    before: Option<R>,
    reading: FollowReading,
    number: u64,
    text: &mut Vec<u8>,
    batch: &mut Vec<u8>,
    sink: &mut K,
) -> Result<R, RunFault<GenesisCause>>
    requires within { is_reading_within reading ≡ true }
    requires some { 1 ≤ workers }
    requires few { workers ≤ 64 }
    requires somewhere { IsSomewhere R.follows before }
    requires answers { FollowsEach R.follows (F.pre answer.now) (F.post answer.now) }
    ensures somewhere { IfOk result (λ after. IsSomewhere R.follows (Some after)) }
    ensures turns { (s : Option Position) → StandsAt R.follows before s → IsFollowedTo R.follows (follow_turn s number reading)
        (record { taken = K.taken sink.old; batch = batch.old.items })
        (record { taken = K.taken sink.new; batch = batch.new.items }) result }
    ensures reads { result ≢ Err RunFault.ReadFault }
    ensures counts { CountsFaults (result ≡ Err RunFault.WriteFault) (K.faults sink.old) (K.faults sink.new) }
{
    let (after, outcome) = answer(workers, before, reading)?;
    outcome.write(&after, number, text, batch, sink)?;
    Ok(after)
}

impl<R: FollowState + Drop, F: Fn(u32, Option<R>, FollowReading) -> FollowAnswered<R>> LineCommand
    for Follow<'_, R, F> {
    ghost use Rattle.std.specs.Prelude.{◌≤◌, Option};
    ghost use Rattle.follow_records.specs.declared.record.FollowReading.{FollowReading};
    ghost use Rattle.follow_loop.specs.Answers.{FollowsEach, IsSomewhere};
    ghost use Rattle.follow_loop.specs.Plays.{Position, follow_play};
    ghost use Rattle.follow_loop.specs.Turns.{StandsAt};

    type Cause = GenesisCause;

    ghost Said = { FollowReading };

    ghost Stand = { Option Position };

    ghost play = { follow_play };

    ghost can = { λ c. FollowsEach R.follows (F.pre c.answer.now) (F.post c.answer.now) × (1 ≤ c.workers) × (c.workers ≤ 64)
        × IsSomewhere R.follows c.state };

    ghost stands = { λ c s. StandsAt R.follows c.state s };

    fn line<K: Sink>(
        &mut self,
        number: u64,
        line: Option<&[u8]>,
        batch: &mut Vec<u8>,
        sink: &mut K,
    ) -> Result<(), RunFault<GenesisCause>> {
        match read(self.alloc, &mut self.scratch, line)? {
            None => Ok(()),
            Some(reading) => {
                let before = self.state.take();
                let after = turn(
                    self.answer,
                    self.workers,
                    before,
                    reading,
                    number,
                    &mut self.text,
                    batch,
                    sink,
                )?;
                self.state = Some(after);
                Ok(())
            }
        }
    }

    fn end<K: Sink>(
        &mut self,
        _number: u64,
        _batch: &mut Vec<u8>,
        _sink: &mut K,
    ) -> Result<(), RunFault<GenesisCause>> {
        match self.state {
            Some(_) => Ok(()),
            None => Err(RunFault::Stop(GenesisCause::Missing)),
        }
    }
}
