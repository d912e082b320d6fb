ghost use Rattle.std.specs.Prelude.{◌≡◌, Err, OnErr, OnOk};
ghost use Rattle.byte_lines.specs.Faults.{CountsFaults};
ghost use Rattle.line_runs.specs.Batches.{TellsAll, TellsPart};
ghost use Rattle.report.specs.Taking.{HasPut};
ghost use Rattle.follow_loop.specs.Outcomes.{follow_outcome_lines, follow_outcome_text};

use crate::plain::put_plain;
use crate::state::FollowState;
use byte_lines::{Sink, SinkFault};
use follow_lines::UnknownLine;
use replay_loop::of_gathered_lines::Through;
use replay_loop::{AnswerFault, Outcome};
use report::{LineTaker, put_one};

/// The outcome of a record of a followed stream, printed over the state after it. (Own)
#[derive(Drop)]
pub enum FollowOutcome {
    /// As in a replay: of a record of a replay, and of a line that is no record.
    Plain(Outcome),
    /// An accepted rollback: one line.
    Rolled,
    /// A refused rollback, with the last slot: one line.
    Unknown { last: u64 },
}

/// The state after what was read and its outcome, or why there is no answer.
pub type FollowAnswered<R> = Result<(R, FollowOutcome), AnswerFault>;

impl FollowOutcome {
    // Hands over its lines, in order; each replaces what the buffer held.
    fn put<R: FollowState, T: LineTaker>(
        &self,
        state: &R,
        line: u64,
        text: &mut Vec<u8>,
        to: &mut T,
    ) -> Result<(), SinkFault>
        ensures { HasPut T.with_line T.IsPart line (T.taken to.old) (follow_outcome_lines (R.world state.now) self.now) (T.taken to.new)
            (T.faults to.old) (T.faults to.new) result }
    {
        match self {
            FollowOutcome::Plain(outcome) => put_plain(outcome, state, line, text, to),
            FollowOutcome::Rolled => state.put_rolled(to, text, line),
            FollowOutcome::Unknown { last } => {
                put_one(to, text, line, &UnknownLine { last: *last })
            }
        }
    }

    // Gathers its lines.
    fn put_through<R: FollowState, K: Sink>(
        &self,
        state: &R,
        line: u64,
        text: &mut Vec<u8>,
        to: &mut Through<'_, K>,
    ) -> Result<(), SinkFault>
        ensures ok { OnOk result (TellsAll (K.taken to.old.sink.now) (K.taken to.new.sink.now) to.old.batch.now.items to.new.batch.now.items
            (follow_outcome_text line (R.world state.now) self.now)) }
        ensures err { OnErr result (TellsPart (K.taken to.old.sink.now) (K.taken to.new.sink.now) to.old.batch.now.items to.new.batch.now.items
            (follow_outcome_text line (R.world state.now) self.now)) }
        ensures same_batch { to.new.batch.ghost_name ≡ to.old.batch.ghost_name }
        ensures same_sink { to.new.sink.ghost_name ≡ to.old.sink.ghost_name }
        ensures counts { CountsFaults (result ≡ Err SinkFault.WriteFault) (K.faults to.old.sink.now) (K.faults to.new.sink.now) }
    {
        self.put(state, line, text, to)
    }

    // Gathers its text over the state after the record, line by line, through one buffer.
    pub(crate) fn write<R: FollowState, K: Sink>(
        self,
        state: &R,
        number: u64,
        text: &mut Vec<u8>,
        batch: &mut Vec<u8>,
        sink: &mut K,
    ) -> Result<(), SinkFault>
        ensures ok { OnOk result (TellsAll (K.taken sink.old) (K.taken sink.new) batch.old.items batch.new.items
            (follow_outcome_text number (R.world state.now) self)) }
        ensures err { OnErr result (TellsPart (K.taken sink.old) (K.taken sink.new) batch.old.items batch.new.items
            (follow_outcome_text number (R.world state.now) self)) }
        ensures counts { CountsFaults (result ≡ Err SinkFault.WriteFault) (K.faults sink.old) (K.faults sink.new) }
    {
        let mut to = Through { batch, sink };
        self.put_through(state, number, text, &mut to)
    }
}
