ghost use Rattle.std.specs.Prelude.{◌≡◌};
ghost use Rattle.command_runs.specs.RunsAs.{RunsAs};

use crate::runs::{checks, explains, follows, loads, resumes, tells};
use byte_lines::{Sink, Source};
use command_runs::of_replay_loop::{Status, Told};
use following::of_held_ledger::Crew;
use load_options::{Command, command_of};
use par_count::Gate;
use std::thread::Threads;

/// Runs the command of the words after the program's name. (Own) `replay` writes a record's text,
/// then reads on, `resume` does so behind a checkpoint, and `follow` takes records back besides;
/// `certify` writes a certificate ahead of each boundary, and `check` answers whether texts are
/// such; `explain` writes every rule that a record breaks, what of a malformed line is not of its
/// shape, with its path, and each name that nobody reads; `shortfall`, `outlook` and `checkpoint`
/// write at the end; `load` writes its stream's summary. Workers (default 1), in the crew's
/// threads, enter its gate and share the counts.
pub fn run<R: Threads + Sync, S: Source, K: Sink, G: Gate + Sync>(
    crew: &Crew<R, G>,
    words: &[String],
    source: &mut S,
    sink: &mut K,
) -> Status
    ensures runs { RunsAs (record { left = S.left; failed_reads = S.faults; taken = K.taken; failed_writes = K.faults })
        (source.old, sink.old) (source.new, sink.new) result words.now }
{
    match command_of(words) {
        Some(Command::Replay { workers }) => tells(crew, workers, Told::Texts, source, sink),
        Some(Command::Shortfall { workers }) => {
            tells(crew, workers, Told::Shortfalls, source, sink)
        }
        Some(Command::Outlook { workers }) => tells(crew, workers, Told::Outlooks, source, sink),
        Some(Command::Checkpoint { workers }) => {
            tells(crew, workers, Told::Checkpoints, source, sink)
        }
        Some(Command::Certify { workers }) => {
            tells(crew, workers, Told::Certificates, source, sink)
        }
        Some(Command::Explain { workers }) => explains(crew, workers, source, sink),
        Some(Command::Follow { workers }) => follows(crew, workers, source, sink),
        Some(Command::Resume { workers }) => resumes(crew, workers, source, sink),
        Some(Command::Check) => checks(crew.alloc, source, sink),
        Some(Command::Load(command)) => loads(crew, command, sink),
        None => Status::Usage,
    }
}
