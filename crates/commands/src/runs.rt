//! The commands over the ledger, each by its status.
ghost use Rattle.std.specs.Prelude.{◌≡◌, ◌≤◌, option_map, true};
ghost use Rattle.byte_lines.specs.Faults.{CountsFaults};
ghost use Rattle.command_runs.specs.RunsAs.{RunsBy};
ghost use Rattle.command_runs.specs.Tasks.{Checks, Explains, Follows, Reads, Resumes};
ghost use Rattle.load_options.specs.Command.{IsWithin};
ghost use Rattle.record_stream.specs.Records.{is_within};
ghost use Rattle.command_runs.specs.of_replay_loop.Answers.{AnswersAs};
ghost use Rattle.command_runs.specs.of_replay_loop.Loads.{IsLoaded};
ghost use Rattle.command_runs.specs.of_replay_loop.Tells.{telling_of};

use byte_lines::{Sink, Source};
use certificate_check::Certificates;
use check_loop::answer_texts;
use command_runs::of_explain_loop::explain;
use command_runs::of_replay_loop::{Answered, Status, Told, load, tell_told};
use command_runs::{status_of_check, status_of_resume};
use following::follow_ledger;
use following::of_held_ledger::{Crew, Held, answer};
use load_options::LoadCommand;
use par_count::Gate;
use resuming::resume_ledger;
use std::alloc::Global;
use std::thread::Threads;
use tx_records::Reading;

/// Reads the records of a source into a ledger, and writes what a command tells of them.
pub(crate) fn tells<R: Threads + Sync, S: Source, K: Sink, G: Gate + Sync>(
    crew: &Crew<R, G>,
    workers: u32,
    told: Told,
    source: &mut S,
    sink: &mut K,
) -> Status
    requires some { 1 ≤ workers }
    requires few { workers ≤ 64 }
    ensures { RunsBy (record { left = S.left; failed_reads = S.faults; taken = K.taken; failed_writes = K.faults })
        (source.old, sink.old) (source.new, sink.new) result (Reads (telling_of told)) }
{
    let answers = |workers: u32, before: Option<Held>, reading: Reading| -> Answered<Held>
        requires some { 1 ≤ workers }
        requires few { workers ≤ 64 }
        requires within { is_within reading ≡ true }
        ensures { AnswersAs (λ held. held.ledger) (option_map (λ held. held.ledger) before) reading result }
    { answer(crew, workers, before, &reading) };
    Status::of(tell_told(crew.alloc, &answers, workers, told, source, sink))
}

/// Says every rule that a record of a source breaks, what of a malformed line is not of its shape,
/// with its path, and each name that nobody reads.
pub(crate) fn explains<R: Threads + Sync, S: Source, K: Sink, G: Gate + Sync>(
    crew: &Crew<R, G>,
    workers: u32,
    source: &mut S,
    sink: &mut K,
) -> Status
    requires some { 1 ≤ workers }
    requires few { workers ≤ 64 }
    ensures { RunsBy (record { left = S.left; failed_reads = S.faults; taken = K.taken; failed_writes = K.faults })
        (source.old, sink.old) (source.new, sink.new) result Explains }
{
    let answers = |workers: u32, before: Option<Held>, reading: Reading| -> Answered<Held>
        requires some { 1 ≤ workers }
        requires few { workers ≤ 64 }
        requires within { is_within reading ≡ true }
        ensures { AnswersAs (λ held. held.ledger) (option_map (λ held. held.ledger) before) reading result }
    { answer(crew, workers, before, &reading) };
    Status::of(explain(crew.alloc, &answers, workers, source, sink))
}

/// Follows the stream of a source, with its rollbacks.
pub(crate) fn follows<R: Threads + Sync, S: Source, K: Sink, G: Gate + Sync>(
    crew: &Crew<R, G>,
    workers: u32,
    source: &mut S,
    sink: &mut K,
) -> Status
    requires some { 1 ≤ workers }
    requires few { workers ≤ 64 }
    ensures { RunsBy (record { left = S.left; failed_reads = S.faults; taken = K.taken; failed_writes = K.faults })
        (source.old, sink.old) (source.new, sink.new) result Follows }
{
    Status::of(follow_ledger(crew, workers, source, sink))
}

/// Goes on from the checkpoint at the beginning of a source.
pub(crate) fn resumes<R: Threads + Sync, S: Source, K: Sink, G: Gate + Sync>(
    crew: &Crew<R, G>,
    workers: u32,
    source: &mut S,
    sink: &mut K,
) -> Status
    requires some { 1 ≤ workers }
    requires few { workers ≤ 64 }
    ensures { RunsBy (record { left = S.left; failed_reads = S.faults; taken = K.taken; failed_writes = K.faults })
        (source.old, sink.old) (source.new, sink.new) result Resumes }
{
    status_of_resume(resume_ledger(crew, workers, source, sink))
}

/// Answers whether the texts of a source are certificates.
pub(crate) fn checks<S: Source, K: Sink>(alloc: Global, source: &mut S, sink: &mut K) -> Status
    ensures { RunsBy (record { left = S.left; failed_reads = S.faults; taken = K.taken; failed_writes = K.faults })
        (source.old, sink.old) (source.new, sink.new) result Checks }
{
    status_of_check(answer_texts::<Certificates, S, K>(alloc, source, sink))
}

/// Replays the stream that is made for a `load`, and writes its summary.
pub(crate) fn loads<R: Threads + Sync, K: Sink, G: Gate + Sync>(
    crew: &Crew<R, G>,
    command: LoadCommand,
    sink: &mut K,
) -> Status
    requires { IsWithin command }
    ensures loaded { IsLoaded result command (K.taken sink.old) (K.taken sink.new) }
    ensures writes { CountsFaults (result ≡ Status.WriteFault) (K.faults sink.old) (K.faults sink.new) }
{
    let answers = |workers: u32, before: Option<Held>, reading: Reading| -> Answered<Held>
        requires some { 1 ≤ workers }
        requires few { workers ≤ 64 }
        requires within { is_within reading ≡ true }
        ensures { AnswersAs (λ held. held.ledger) (option_map (λ held. held.ledger) before) reading result }
    { answer(crew, workers, before, &reading) };
    Status::of(load(crew.alloc, &answers, command, sink))
}
