//! Reads and writes that fail, each in turn, and input that is cut.
ghost use Rattle.std.specs.Prelude.{◌<◌};

use crate::memory::{ran, replayed_in_memory};
use crate::streams::{ROW, ROW_TEXT, first_lines, stream, whole_lines};
use byte_lines::{FaultySink, FaultySource, MemorySink, MemorySource};
use commands::{GenesisCause, Status};
use no_memory::NoMemory;
use std::alloc::Global;
use std::test::Fail;
use std::thread::Threads;
use tx_records::FieldName;

/// How a run of these words ends where read k, of `part` bytes at most, fails, and what it wrote.
pub fn with_failing_read<R: Threads + Sync>(
    rt: &R,
    alloc: Global,
    words: &str,
    bytes: &[u8],
    part: usize,
    k: usize,
) -> Result<(Status, MemorySink), NoMemory>
    requires { 0 < part }
{
    let failing = [k as u64];
    let mut source = FaultySource::new(bytes, part, &failing);
    let mut sink = MemorySink::new(alloc);
    let status = ran(rt, alloc, words, &mut source, &mut sink)?;
    Ok((status, sink))
}

/// Read k fails, also with reads of one byte and with workers: the text of whole lines was written.
/// Past the end no read comes.
#[test]
fn each_read_fails(rt: HostRuntime) -> Result<(), Fail> {
    let bytes = stream(rt.alloc(), ROW)?;
    for (words, part) in [("replay", 64), ("replay --workers 2", 1)] {
        let reads = bytes.len().div_ceil(part);
        for k in 0..=reads.saturating_add(2) {
            let came = bytes
                .get(..part.saturating_mul(k))
                .unwrap_or(bytes.as_slice());
            let text = first_lines(ROW_TEXT.as_bytes(), whole_lines(came));
            let want = if k > reads {
                Status::Done
            } else {
                Status::ReadFault
            };
            let (status, sink) = with_failing_read(
                &rt,
                rt.alloc(),
                words,
                bytes.as_slice(),
                part,
                k,
            )?;
            assert_eq!(rt;
                (status, sink.as_slice()),
                (want, text),
                "{words}, read {k}"
            );
        }
    }
    Ok(())
}

/// The most bytes of a write, which one fails, and the text before it: seven lines, then bytes.
fn failing_write(number: usize) -> (usize, u64, &'static [u8])
    ensures { 0 < result.0 }
{
    let text = ROW_TEXT.as_bytes();
    if number < 7 {
        return (65_536, number as u64, first_lines(text, number));
    }
    let count = number - 7;
    (1, count as u64, text.get(..count).unwrap_or(text))
}

/// A write fails: the lines, or the bytes, before it were written.
#[test]
fn each_write_fails(rt: HostRuntime) -> Result<(), Fail> {
    let bytes = stream(rt.alloc(), ROW)?;
    for words in ["replay", "replay --workers 2"] {
        for number in 0..320usize {
            let (piece, k, text) = failing_write(number);
            let failing = [k];
            let mut source = MemorySource::new(bytes.as_slice(), 7);
            let mut sink = FaultySink::new(rt.alloc(), piece, &failing);
            let status = ran(&rt, rt.alloc(), words, &mut source, &mut sink)?;
            let want = if text.len() == ROW_TEXT.len() {
                Status::Done
            } else {
                Status::WriteFault
            };
            assert_eq!(rt;
                (status, sink.as_slice()),
                (want, text),
                "{words}, write {k} of {piece} bytes"
            );
        }
    }
    Ok(())
}

/// The text of a cut stream of a genesis and a transaction: the last piece counts as a line.
fn cut_answer(end: usize, genesis: usize, whole: usize) -> (Status, &'static str) {
    if end == 0 {
        (Status::BadGenesis(GenesisCause::Missing), "")
    } else if end < genesis {
        let cause = GenesisCause::Malformed {
            what: FieldName::Json,
            place: None,
        };
        (Status::BadGenesis(cause), "")
    } else if end - genesis <= 1 {
        (
            Status::Done,
            "1 genesis outputs 0 deposits 0 rewards 0 fees 0 donations 0 treasury 0 reserves 9 supply 9\n",
        )
    } else if end < whole {
        (
            Status::Done,
            "1 genesis outputs 0 deposits 0 rewards 0 fees 0 donations 0 treasury 0 reserves 9 supply 9\n2 refused 1 Malformed json\n",
        )
    } else {
        (
            Status::Done,
            "1 genesis outputs 0 deposits 0 rewards 0 fees 0 donations 0 treasury 0 reserves 9 supply 9\n2 refused 33 InputMissing at 0\n",
        )
    }
}

/// Input that is cut after each byte of a genesis and of a line.
#[test]
fn each_cut(rt: HostRuntime) -> Result<(), Fail> {
    let genesis = stream(rt.alloc(), "g")?;
    let bytes = stream(rt.alloc(), "g\n2")?;
    for end in 0..=bytes.len() {
        let came = bytes.get(..end).unwrap_or(bytes.as_slice());
        let (status, sink) = replayed_in_memory(&rt, rt.alloc(), came, 65_536)?;
        let (want, text) = cut_answer(end, genesis.len(), bytes.len());
        assert_eq!(rt;
            (status, sink.as_slice()),
            (want, text.as_bytes()),
            "{end} bytes"
        );
    }
    Ok(())
}
