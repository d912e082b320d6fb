//! Streams that are followed, with rollbacks.
ghost use Rattle.std.specs.Prelude.{◌<◌};

use crate::memory::ran;
use crate::streams::{FOLLOWED, FOLLOWED_TEXT, answers_to, stream, whole_lines};
use byte_lines::{FaultySource, MemorySink, MemorySource};
use commands::Status;
use no_memory::NoMemory;
use std::alloc::Global;
use std::process::Abort;
use std::test::Fail;
use std::thread::Threads;

/// How a run of these words ends, one read giving at most `part` bytes, and what it wrote.
fn run_over<R: Threads + Sync>(
    rt: &R,
    alloc: Global,
    words: &str,
    bytes: &[u8],
    part: usize,
) -> Result<(Status, MemorySink), NoMemory>
    requires { 0 < part }
{
    let mut source = MemorySource::new(bytes, part);
    let mut sink = MemorySink::new(alloc);
    let status = ran(rt, alloc, words, &mut source, &mut sink)?;
    Ok((status, sink))
}

/// How such a run ends where read k, of 64 bytes at most, fails.
fn with_failing_read<R: Threads + Sync>(
    rt: &R,
    alloc: Global,
    words: &str,
    bytes: &[u8],
    k: u64,
) -> Result<(Status, MemorySink), NoMemory> {
    let failing = [k];
    let mut source = FaultySource::new(bytes, 64, &failing);
    let mut sink = MemorySink::new(alloc);
    let status = ran(rt, alloc, words, &mut source, &mut sink)?;
    Ok((status, sink))
}

/// A rollback, a transaction that comes again, and a rollback to no block, by several workers; and
/// read k fails: the answers to the whole lines were written.
#[test]
fn follows_rollbacks(rt: HostRuntime) -> Result<(), Fail> {
    let bytes = stream(rt.alloc(), FOLLOWED)?;
    let text = FOLLOWED_TEXT.as_bytes();
    for words in ["follow", "follow --workers 2", "follow --workers 64"] {
        let (status, sink) = run_over(&rt, rt.alloc(), words, bytes.as_slice(), 7)?;
        assert_eq!(rt; (status, sink.as_slice()), (Status::Done, text), "{words}");
    }
    for k in 0..bytes.len().div_ceil(64) as u64 {
        let (status, sink) = with_failing_read(&rt, rt.alloc(), "follow", bytes.as_slice(), k)?;
        let came = bytes.get(..64 * k as usize).unwrap_or(bytes.as_slice());
        let written = answers_to(text, whole_lines(came));
        assert_eq!(rt;
            (status, sink.as_slice()),
            (Status::ReadFault, written),
            "read {k}"
        );
    }
    Ok(())
}
