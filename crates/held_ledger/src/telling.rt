ghost use Rattle.std.specs.Prelude.{◌≡◌, ◌≤◌, ℕ, List, Err, Some, option_map, true};
ghost use Rattle.byte_lines.specs.Faults.{CountsFaults};
ghost use Rattle.line_runs.specs.Runs.{IsRunOf};
ghost use Rattle.record_stream.specs.Records.{is_within};
ghost use Rattle.replay_loop.specs.Answers.{AnswersAs};
ghost use Rattle.replay_loop.specs.Plays.{run_of};

use crate::answers::answer;
use crate::crew::Crew;
use crate::held::Held;
use byte_lines::{Sink, Source};
use line_runs::RunFault;
use record_rule::of_par_count::Gate;
use replay_loop::{Answered, GenesisCause, Teller, tell_records};
use std::thread::Threads;
use tx_records::Reading;

/// Reads the records of a source into a ledger, and writes what the teller says of them: a program
/// of your own over the loop of the commands. `workers`, 1 to 64, share the counts.
pub fn tell<R: Threads + Sync, S: Source, K: Sink, G: Gate + Sync, H: Teller<Held> + Drop>(
    crew: &Crew<R, G>,
    workers: u32,
    teller: H,
    source: &mut S,
    sink: &mut K,
) -> Result<(), RunFault<GenesisCause>>
    requires some { 1 ≤ workers }
    requires few { workers ≤ 64 }
    ensures runs { (bytes : List ℕ) → S.left source.old ≡ Some bytes →
        IsRunOf (run_of H.telling (H.kept teller)) bytes (S.left source.new) (K.taken sink.old) (K.taken sink.new) result }
    ensures reads { CountsFaults (result ≡ Err RunFault.ReadFault) (S.faults source.old) (S.faults source.new) }
    ensures writes { CountsFaults (result ≡ Err RunFault.WriteFault) (K.faults sink.old) (K.faults sink.new) }
{
    let answers = |workers: u32, before: Option<Held>, reading: Reading| -> Answered<Held>
        requires some { 1 ≤ workers }
        requires few { workers ≤ 64 }
        requires within { is_within reading ≡ true }
        ensures { AnswersAs (λ held. held.ledger) (option_map (λ held. held.ledger) before) reading result }
    { answer(crew, workers, before, &reading) };
    tell_records(crew.alloc, &answers, workers, teller, source, sink)
}
