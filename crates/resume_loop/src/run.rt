ghost use Rattle.std.specs.Prelude.{◌≡◌, ◌≤◌, ℕ, List, Err, Some};
ghost use Rattle.byte_lines.specs.Faults.{CountsFaults};
ghost use Rattle.replay_loop.specs.Answers.{AnswersEach};
ghost use Rattle.resume_loop.specs.Resumed.{IsResumed};

use crate::fault::NoCheckpoint;
use crate::head::read_head;
use crate::renumbered::Renumbered;
use crate::state::ResumedState;
use byte_lines::{Lines, Sink, Source, whole_lines};
use hash_seed::HashSeed;
use line_runs::{RunFault, run_lines};
use record_read::Scratch;
use replay_loop::{Answered, Records, TextTeller};
use std::alloc::Global;
use tx_records::Reading;
use tx_records::limits::{LINE_LIMIT, STREAM_LIMIT};

/// Reads a checkpoint and then records, and writes the text of these: that of a run which went on.
/// Nothing is written if the lines up to the first `end` are no checkpoint (`Stop`), nor if a fault
/// comes before that line. No clause depends on the number of workers.
pub fn resume<
    R: ResumedState + Drop,
    S: Source,
    K: Sink,
    F: Fn(u32, Option<R>, Reading) -> Answered<R>,
>(
    alloc: Global,
    seed: HashSeed,
    answer: &F,
    workers: u32,
    source: &mut S,
    sink: &mut K,
) -> Result<(), RunFault<NoCheckpoint>>
    requires some { 1 ≤ workers }
    requires few { workers ≤ 64 }
    requires answers { AnswersEach R.world (F.pre answer.now) (F.post answer.now) }
    ensures runs { (bytes : List ℕ) → S.left source.old ≡ Some bytes →
        IsResumed bytes (S.left source.new) (K.taken sink.old) (K.taken sink.new) result }
    ensures reads { CountsFaults (result ≡ Err RunFault.ReadFault) (S.faults source.old) (S.faults source.new) }
    ensures writes { CountsFaults (result ≡ Err RunFault.WriteFault) (K.faults sink.old) (K.faults sink.new) }
{
    // (laws: how bytes are cut into lines)
    whole_lines();
    let mut lines = Lines::new(alloc, LINE_LIMIT, STREAM_LIMIT);
    let Some((state, line)) = read_head::<R, S>(alloc, seed, workers, &mut lines, source)? else {
        return Err(RunFault::Stop(NoCheckpoint));
    };
    let mut command = Renumbered {
        records: Records {
            alloc,
            answer,
            workers,
            state: Some(state),
            teller: TextTeller::new(alloc),
            scratch: Scratch::new(alloc),
        },
        passed: lines.number(),
        line,
    };
    run_lines(alloc, &mut lines, &mut command, source, sink)
}
