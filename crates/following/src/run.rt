ghost use Rattle.std.specs.Prelude.{◌≡◌, ◌≤◌, ℕ, List, Err, Some, true};
ghost use Rattle.byte_lines.specs.Faults.{CountsFaults};
ghost use Rattle.follow_loop.specs.Answers.{FollowAnswers, IsSomewhere};
ghost use Rattle.follow_loop.specs.Plays.{follow_run};
ghost use Rattle.follow_loop.specs.Readings.{is_reading_within};
ghost use Rattle.following.specs.Follows.{follows_state};
ghost use Rattle.line_runs.specs.Runs.{IsRunOf};

use crate::answer::answer_followed;
use crate::followed::Followed;
use byte_lines::{Sink, Source};
use follow_loop::{FollowAnswered, follow};
use follow_records::FollowReading;
use held_ledger::Crew;
use line_runs::RunFault;
use par_count::Gate;
use replay_loop::GenesisCause;
use std::thread::Threads;

/// Reads a stream with rollbacks from its genesis to its end, and writes the text of each record
/// before it asks the source for more. `workers`, 1 to 64, share the counts. (Own)
pub fn follow_ledger<T: Threads + Sync, S: Source, K: Sink, G: Gate + Sync>(
    crew: &Crew<T, G>,
    workers: u32,
    source: &mut S,
    sink: &mut K,
) -> Result<(), RunFault<GenesisCause>>
    requires some { 1 ≤ workers }
    requires few { workers ≤ 64 }
    ensures runs { (bytes : List ℕ) → S.left source.old ≡ Some bytes →
        IsRunOf follow_run bytes (S.left source.new) (K.taken sink.old) (K.taken sink.new) result }
    ensures reads { CountsFaults (result ≡ Err RunFault.ReadFault) (S.faults source.old) (S.faults source.new) }
    ensures writes { CountsFaults (result ≡ Err RunFault.WriteFault) (K.faults sink.old) (K.faults sink.new) }
{
    let answers = |workers: u32, before: Option<
        Followed,
    >, reading: FollowReading| -> FollowAnswered<Followed>
        requires some { 1 ≤ workers }
        requires few { workers ≤ 64 }
        requires within { is_reading_within reading ≡ true }
        requires somewhere { IsSomewhere follows_state before }
        ensures { FollowAnswers follows_state before reading result }
    { answer_followed(crew, workers, before, reading) };
    follow(crew.alloc, &answers, workers, source, sink)
}
