ghost use Rattle.std.specs.Prelude.{◌≡◌, ◌≤◌, ℕ, List, Err, Some};
ghost use Rattle.byte_lines.specs.Faults.{CountsFaults};
ghost use Rattle.line_runs.specs.Runs.{IsRunOf};
ghost use Rattle.replay_loop.specs.Answers.{AnswersEach};
ghost use Rattle.explain_loop.specs.Plays.{explain_run};

use crate::command::Explain;
use crate::place::Place;
use crate::state::ExplainedState;
use byte_lines::{Lines, Sink, Source};
use explain_print::of_explain_model::of_record_notes::Scratch;
use line_runs::{RunFault, run_lines};
use replay_loop::{Answered, GenesisCause};
use std::alloc::Global;
use tx_records::Reading;
use tx_records::limits::{LINE_LIMIT, STREAM_LIMIT};

/// Reads a stream from its genesis to its end, with a function that answers its records, and writes
/// every rule that each record breaks, all that is wrong with what was read first, what of a
/// malformed line is not of its shape, with its path, and each name that nobody reads, before it
/// asks the source for more. No clause depends on the number of workers.
pub fn explain<
    R: ExplainedState + Drop,
    S: Source,
    K: Sink,
    F: Fn(u32, Option<R>, Reading) -> Answered<R>,
>(
    alloc: Global,
    answer: &F,
    workers: u32,
    source: &mut S,
    sink: &mut K,
) -> Result<(), RunFault<GenesisCause>>
    requires some { 1 ≤ workers }
    requires few { workers ≤ 64 }
    requires answers { AnswersEach R.world (F.pre answer.now) (F.post answer.now) }
    ensures runs { (bytes : List ℕ) → S.left source.old ≡ Some bytes →
        IsRunOf explain_run bytes (S.left source.new) (K.taken sink.old) (K.taken sink.new) result }
    ensures reads { CountsFaults (result ≡ Err RunFault.ReadFault) (S.faults source.old) (S.faults source.new) }
    ensures writes { CountsFaults (result ≡ Err RunFault.WriteFault) (K.faults sink.old) (K.faults sink.new) }
{
    let mut lines = Lines::new(alloc, LINE_LIMIT, STREAM_LIMIT);
    let mut command = Explain {
        alloc,
        answer,
        workers,
        place: Place::Unbegun,
        scratch: Scratch::new(alloc),
        text: Vec::new(alloc),
    };
    run_lines(alloc, &mut lines, &mut command, source, sink)
}
