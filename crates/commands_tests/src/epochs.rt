//! Faults and cuts of a stream with two boundaries, a pass that enacts, and a print of the state.
ghost use Rattle.std.specs.Prelude.{◌<◌};

use crate::memory::{ran, replayed_in_memory};
use crate::streams::{MOTION, MOTION_TEXT, answers_to, stream, whole_lines};
use byte_lines::{FaultySink, FaultySource, MemorySink, MemorySource};
use commands::Status;
use no_memory::NoMemory;
use std::alloc::Global;
use std::process::Abort;
use std::test::Fail;
use std::thread::Threads;

/// The whole text, in parts of several sizes.
#[test]
fn enacts_a_motion(rt: HostRuntime) -> Result<(), Fail> {
    let bytes = stream(rt.alloc(), MOTION)?;
    for part in [1, 7, 65_536] {
        let (status, sink) = replayed_in_memory(&rt, rt.alloc(), bytes.as_slice(), part)?;
        assert_eq!(rt;
            (status, sink.as_slice()),
            (Status::Done, MOTION_TEXT.as_bytes()),
            "in parts of {part}"
        );
    }
    Ok(())
}

/// One worker, two, and more than there are entries: the numbers of workers change nothing.
const REPLAYS: [&str; 3] = ["replay", "replay --workers 2", "replay --workers 64"];

/// How a run of these words ends where read k, of 64 bytes at most, fails, and what it wrote.
fn with_failing_read<R: Threads + Sync>(
    rt: &R,
    alloc: Global,
    words: &str,
    bytes: &[u8],
    k: u64,
) -> Result<(Status, MemorySink), NoMemory> {
    let failing = [k];
    let mut source = FaultySource::new(bytes, 64, &failing);
    let mut sink = MemorySink::new(alloc);
    let status = ran(rt, alloc, words, &mut source, &mut sink)?;
    Ok((status, sink))
}

/// Read k fails: the answers to the whole lines were written, boundaries and states whole.
/// Past the end no read comes.
#[test]
fn each_read_fails(rt: HostRuntime) -> Result<(), Fail> {
    let bytes = stream(rt.alloc(), MOTION)?;
    for words in REPLAYS {
        for k in 0..60u64 {
            let (status, sink) = with_failing_read(&rt, rt.alloc(), words, bytes.as_slice(), k)?;
            let came = bytes.get(..64 * k as usize).unwrap_or(bytes.as_slice());
            let text = answers_to(MOTION_TEXT.as_bytes(), whole_lines(came));
            let want = if k as usize > bytes.len().div_ceil(64) {
                Status::Done
            } else {
                Status::ReadFault
            };
            assert_eq!(rt;
                (status, sink.as_slice()),
                (want, text),
                "{words}, read {k}"
            );
        }
    }
    Ok(())
}

/// How a run of these words ends if write k, of `part` bytes at most, fails, and what it wrote.
/// A read gives one byte, so that the answer to each line is handed over by itself.
fn with_failing_write<R: Threads + Sync>(
    rt: &R,
    alloc: Global,
    words: &str,
    bytes: &[u8],
    part: usize,
    k: u64,
) -> Result<(Status, Vec<u8>), NoMemory>
    requires { 0 < part }
{
    let failing = [k];
    let mut source = MemorySource::new(bytes, 1);
    let mut sink = FaultySink::new(alloc, part, &failing);
    let status = ran(rt, alloc, words, &mut source, &mut sink)?;
    let mut written = Vec::new(alloc);
    written.extend_from_slice(sink.as_slice())?;
    Ok((status, written))
}

/// The wanted ending where this prefix of the text was written.
fn end_after(written: &[u8]) -> Status {
    if written.len() == MOTION_TEXT.len() {
        Status::Done
    } else {
        Status::WriteFault
    }
}

/// The write of the answer to a line fails: the answers before it were written.
#[test]
fn each_answer_fails(rt: HostRuntime) -> Result<(), Fail> {
    let bytes = stream(rt.alloc(), MOTION)?;
    for words in REPLAYS {
        for k in 0..9usize {
            let text = answers_to(MOTION_TEXT.as_bytes(), k);
            let (status, written) = with_failing_write(
                &rt,
                rt.alloc(),
                words,
                bytes.as_slice(),
                65_536,
                k as u64,
            )?;
            assert_eq!(rt;
                (status, written.as_slice()),
                (end_after(text), text),
                "{words}, answer {k}"
            );
        }
    }
    Ok(())
}

/// A write of a byte fails: the bytes before it were written. Each tenth of them is tried.
#[test]
fn bytes_fail(rt: HostRuntime) -> Result<(), Fail> {
    let bytes = stream(rt.alloc(), MOTION)?;
    for tenth in 0..280usize {
        let text = MOTION_TEXT
            .as_bytes()
            .get(..10 * tenth)
            .unwrap_or(MOTION_TEXT.as_bytes());
        let (status, written) = with_failing_write(
            &rt,
            rt.alloc(),
            "replay",
            bytes.as_slice(),
            1,
            10 * tenth as u64,
        )?;
        assert_eq!(rt;
            (status, written.as_slice()),
            (end_after(text), text),
            "byte {}",
            10 * tenth
        );
    }
    Ok(())
}

/// The text of a stream of whole lines, and then a piece of one, if any, which is no record.
fn cut_text(alloc: Global, count: usize, piece: bool) -> Result<Vec<u8>, NoMemory> {
    let mut text = Vec::new(alloc);
    text.extend_from_slice(answers_to(MOTION_TEXT.as_bytes(), count))?;
    if piece && let Some(digit) = b"123456".get(count) {
        text.push(*digit)?;
        text.extend_from_slice(b" refused 1 Malformed json\n")?;
    }
    Ok(text)
}

/// The run of whole lines and of a line that is cut after `end` bytes writes what is wanted.
fn is_cut<R: Threads + Abort + Sync>(
    rt: &R,
    alloc: Global,
    front: &[u8],
    line: &[u8],
    end: usize,
) -> Result<(), Fail> {
    let mut bytes = Vec::new(alloc);
    bytes.extend_from_slice(front)?;
    bytes.extend_from_slice(line.get(..end).unwrap_or(line))?;
    let whole = whole_lines(front).saturating_add(usize::from(end == line.len()));
    let want = cut_text(alloc, whole, 0 < end && end < line.len())?;
    let (status, sink) = replayed_in_memory(rt, alloc, bytes.as_slice(), 65_536)?;
    assert_eq!(rt;
        (status, sink.as_slice()),
        (Status::Done, want.as_slice()),
        "{end} bytes"
    );
    Ok(())
}

/// Input that is cut after each byte of one line: a proposal, the block that enacts it, a print.
#[test]
fn each_cut(rt: HostRuntime) -> Result<(), Fail> {
    for (before, line) in [
        ("E\n", "m"),
        ("E\nm\nv\nt\n", "u"),
        ("E\nm\nv\nt\nu\n", "s"),
    ] {
        let front = stream(rt.alloc(), before)?;
        let line = stream(rt.alloc(), line)?;
        for end in 0..=line.len() {
            is_cut(&rt, rt.alloc(), front.as_slice(), line.as_slice(), end)?;
        }
    }
    Ok(())
}
