//! conway: Cardano's Conway ledger, replayed from records on standard input.
#![tactic(auto)]

use byte_lines::{ReaderSource, WriterSink};
use commands::{Crew, run_to_exit};
use hash_seed::HashSeed;
use par_count::OpenGate;
use std::env;
use std::process::ExitCode;
use std::rt::Env;

/// The words of the command line, the program's name first, where the system gives them.
fn args_of(rt: &(impl Env + AllocGlobal)) -> Option<Vec<String>> {
    env::args(rt).ok()?.collect(rt.alloc()).ok()
}

fn main(rt: HostRuntime) -> ExitCode {
    let Some(args) = args_of(&rt) else {
        return ExitCode::from(1);
    };
    let Ok(seed) = HashSeed::random(&rt) else {
        return ExitCode::from(1);
    };
    let crew = Crew {
        alloc: rt.alloc(),
        rt: &rt,
        gate: &OpenGate,
        seed,
    };
    let mut source = ReaderSource::new(rt.stdin());
    let mut sink = WriterSink::new(rt.stdout());
    run_to_exit(&crew, args.as_slice(), &mut source, &mut sink)
}
