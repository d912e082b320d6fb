//! Text goes out in few writes, each of at most 64 KiB and of whole lines, and before more is read.
use crate::faults::with_failing_read;
use crate::memory::ran;
use crate::streams::{first_lines, stream, whole_lines};
use byte_lines::{FaultySink, MemorySource};
use commands::Status;
use no_memory::NoMemory;
use std::alloc::Global;
use std::test::Fail;
use std::thread::Threads;

/// How many prints follow the genesis: 150,000 bytes, which are three reads of at most 64 KiB.
const PRINTS: u64 = 5_000;

/// The most bytes of a read, and of a write.
const PART: usize = 65_536;

/// The stream.
fn prints(alloc: Global) -> Result<Vec<u8>, NoMemory> {
    let mut bytes = stream(alloc, "g\n")?;
    let line = stream(alloc, "p\n")?;
    for _print in 0..PRINTS {
        bytes.extend_from_slice(line.as_slice())?;
    }
    Ok(bytes)
}

/// Its text, of some 450,000 bytes.
fn answers(alloc: Global) -> Result<Vec<u8>, NoMemory> {
    let pots = "outputs 0 deposits 0 rewards 0 fees 0 donations 0 treasury 0 reserves 9 supply 9";
    let genesis = format!(in alloc; "1 genesis {pots}\n")?;
    let mut text = Vec::new(alloc);
    text.extend_from_slice(genesis.as_bytes())?;
    for print in 0..PRINTS {
        let number = print + 2;
        let answer = format!(in alloc; "{number} pots {pots}\n")?;
        text.extend_from_slice(answer.as_bytes())?;
    }
    Ok(text)
}

/// How the run ends if write k fails, a write taking any number of bytes, and what it wrote.
fn with_failing_write<R: Threads + Sync>(
    rt: &R,
    alloc: Global,
    words: &str,
    bytes: &[u8],
    k: u64,
) -> Result<(Status, Vec<u8>), NoMemory> {
    let failing = [k];
    let mut source = MemorySource::new(bytes, 1_000_000);
    let mut sink = FaultySink::new(alloc, 1_000_000, &failing);
    let status = ran(rt, alloc, words, &mut source, &mut sink)?;
    let mut written = Vec::new(alloc);
    written.extend_from_slice(sink.as_slice())?;
    Ok((status, written))
}

/// A write is of 64 KiB, with whole lines, or of what is left of a read: there are at most ten.
#[test]
fn writes_whole_lines_in_few_parts(rt: HostRuntime) -> Result<(), Fail> {
    let bytes = prints(rt.alloc())?;
    let text = answers(rt.alloc())?;
    let text = text.as_slice();
    for words in ["replay", "replay --workers 4"] {
        let mut before = 0;
        for k in 0..=10u64 {
            let (status, written) = with_failing_write(
                &rt,
                rt.alloc(),
                words,
                bytes.as_slice(),
                k,
            )?;
            let lines = first_lines(text, whole_lines(written.as_slice()));
            assert_eq!(rt; written.as_slice(), lines, "{words}, write {k}");
            let want = if lines.len() == text.len() {
                Status::Done
            } else {
                Status::WriteFault
            };
            assert_eq!(rt; status, want, "{words}, write {k}");
            let part = written.len().saturating_sub(before);
            assert!(rt; part <= PART, "{words}, write {k}");
            before = written.len();
        }
        assert_eq!(rt; before, text.len(), "{words}");
    }
    Ok(())
}

/// Before a read fails, all text of the lines that came was written.
#[test]
fn writes_before_each_read(rt: HostRuntime) -> Result<(), Fail> {
    let bytes = prints(rt.alloc())?;
    let text = answers(rt.alloc())?;
    for words in ["replay", "replay --workers 4"] {
        for k in 0..=4usize {
            let came = bytes
                .get(..PART.saturating_mul(k))
                .unwrap_or(bytes.as_slice());
            let lines = first_lines(text.as_slice(), whole_lines(came));
            let (status, sink) = with_failing_read(
                &rt,
                rt.alloc(),
                words,
                bytes.as_slice(),
                1_000_000,
                k,
            )?;
            let want = if k > 3 {
                Status::Done
            } else {
                Status::ReadFault
            };
            assert_eq!(rt;
                (status, sink.as_slice()),
                (want, lines),
                "{words}, read {k}"
            );
        }
    }
    Ok(())
}
