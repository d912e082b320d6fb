ghost use Rattle.std.specs.Prelude.{◌≡◌, ◌≤◌, ℕ, List, Err, Some, option_map, true};
ghost use Rattle.byte_lines.specs.Faults.{CountsFaults};
ghost use Rattle.record_stream.specs.Records.{is_within};
ghost use Rattle.replay_loop.specs.Answers.{AnswersAs};
ghost use Rattle.resume_loop.specs.Resumed.{IsResumed};

use crate::resumed::{Resumed, answer_resumed};
use byte_lines::{Sink, Source};
use held_ledger::Crew;
use line_runs::RunFault;
use par_count::Gate;
use replay_loop::Answered;
use resume_loop::{NoCheckpoint, resume};
use std::thread::Threads;
use tx_records::Reading;

/// Reads a checkpoint up to its `end`, makes its ledger, and goes on with the records behind it, as
/// `replay` does. `workers`, 1 to 64, share the counts. (Own)
pub fn resume_ledger<T: Threads + Sync, S: Source, K: Sink, G: Gate + Sync>(
    crew: &Crew<T, G>,
    workers: u32,
    source: &mut S,
    sink: &mut K,
) -> Result<(), RunFault<NoCheckpoint>>
    requires some { 1 ≤ workers }
    requires few { workers ≤ 64 }
    ensures runs { (bytes : List ℕ) → S.left source.old ≡ Some bytes →
        IsResumed bytes (S.left source.new) (K.taken sink.old) (K.taken sink.new) result }
    ensures reads { CountsFaults (result ≡ Err RunFault.ReadFault) (S.faults source.old) (S.faults source.new) }
    ensures writes { CountsFaults (result ≡ Err RunFault.WriteFault) (K.faults sink.old) (K.faults sink.new) }
{
    let answers = |workers: u32, before: Option<Resumed>, reading: Reading| -> Answered<Resumed>
        requires some { 1 ≤ workers }
        requires few { workers ≤ 64 }
        requires within { is_within reading ≡ true }
        ensures { AnswersAs (λ r. r.held.ledger) (option_map (λ r. r.held.ledger) before) reading result }
    { answer_resumed(crew, workers, before, &reading) };
    resume(crew.alloc, crew.seed, &answers, workers, source, sink)
}
