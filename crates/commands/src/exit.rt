ghost use Rattle.std.specs.Prelude.{◌≡◌, drop};
ghost use Rattle.std.specs.Process.{exit_status};
ghost use Rattle.command_runs.specs.RunsAs.{RunsAs};
ghost use Rattle.command_runs.specs.of_replay_loop.Statuses.{status_number};
ghost use Rattle.command_runs.specs.of_replay_loop.declared.status.Status.{Status};

use crate::command::after_name;
use crate::dispatch::run;
use byte_lines::{Sink, Source};
use following::of_held_ledger::Crew;
use par_count::Gate;
use std::process::ExitCode;
use std::thread::Threads;

/// Runs the command of the words after the program's name, and exits with its status's number.
pub fn run_to_exit<R: Threads + Sync, S: Source, K: Sink, G: Gate + Sync>(
    crew: &Crew<R, G>,
    args: &[String],
    source: &mut S,
    sink: &mut K,
) -> ExitCode
    ensures runs { (status : Status) × (exit_status result ≡ status_number status)
        × RunsAs (record { left = S.left; failed_reads = S.faults; taken = K.taken; failed_writes = K.faults })
        (source.old, sink.old) (source.new, sink.new) status (drop 1 args.now) }
{
    let status = run(crew, after_name(args), source, sink);
    ExitCode::from(status.number())
}
