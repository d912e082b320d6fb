//! A voting tool: votes, counts, needs and prospects of each live proposal, by the library.
//! It reads a stream from standard input, and prints lines about the ledger after the last record,
//! each with the number of that record's line. docs/use/library.md explains it.
#![tactic(auto)]

use byte_lines::{ReaderSource, WriterSink};
use hash_seed::HashSeed;
use par_count::OpenGate;
use std::process::ExitCode;
use voting_lines::of_held_ledger::Crew;
use voting_lines::report_votes;

fn main(rt: HostRuntime) -> ExitCode {
    let Ok(seed) = HashSeed::random(&rt) else {
        return ExitCode::from(1);
    };
    let mut source = ReaderSource::new(rt.stdin());
    let mut sink = WriterSink::new(rt.stdout());
    let crew = Crew {
        alloc: rt.alloc(),
        rt: &rt,
        gate: &OpenGate,
        seed,
    };
    ExitCode::from(report_votes(&crew, &mut source, &mut sink).number())
}
