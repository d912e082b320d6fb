ghost use Rattle.std.specs.Prelude.{◌≡◌, ◌≤◌, ℕ, List, Err, Some};
ghost use Rattle.byte_lines.specs.Faults.{CountsFaults};
ghost use Rattle.line_runs.specs.Runs.{IsRunOf};
ghost use Rattle.follow_loop.specs.Answers.{FollowsEach};
ghost use Rattle.follow_loop.specs.Plays.{follow_run};

use crate::command::Follow;
use crate::outcome::FollowAnswered;
use crate::state::FollowState;
use byte_lines::{Lines, Sink, Source};
use follow_records::FollowReading;
use line_runs::{RunFault, run_lines};
use record_read::Scratch;
use replay_loop::GenesisCause;
use std::alloc::Global;
use tx_records::limits::{LINE_LIMIT, STREAM_LIMIT};

/// Reads a stream with rollbacks from its genesis to its end, with a function that answers its
/// records, and writes the text of each before it asks the source for more. No clause depends on
/// the number of workers. (Own)
pub fn follow<
    R: FollowState + Drop,
    S: Source,
    K: Sink,
    F: Fn(u32, Option<R>, FollowReading) -> FollowAnswered<R>,
>(
    alloc: Global,
    answer: &F,
    workers: u32,
    source: &mut S,
    sink: &mut K,
) -> Result<(), RunFault<GenesisCause>>
    requires some { 1 ≤ workers }
    requires few { workers ≤ 64 }
    requires answers { FollowsEach R.follows (F.pre answer.now) (F.post answer.now) }
    ensures runs { (bytes : List ℕ) → S.left source.old ≡ Some bytes →
        IsRunOf follow_run bytes (S.left source.new) (K.taken sink.old) (K.taken sink.new) result }
    ensures reads { CountsFaults (result ≡ Err RunFault.ReadFault) (S.faults source.old) (S.faults source.new) }
    ensures writes { CountsFaults (result ≡ Err RunFault.WriteFault) (K.faults sink.old) (K.faults sink.new) }
{
    let mut lines = Lines::new(alloc, LINE_LIMIT, STREAM_LIMIT);
    let mut command = Follow {
        alloc,
        answer,
        workers,
        state: None,
        scratch: Scratch::new(alloc),
        text: Vec::new(alloc),
    };
    run_lines(alloc, &mut lines, &mut command, source, sink)
}
