//! The command `shortfall`: its whole text, its words, and each read and each write that fails.
use crate::faults::with_failing_read;
use crate::memory::ran;
use crate::streams::{LACKS, LACKS_TEXT, stream};
use byte_lines::{FaultySink, MemorySink, MemorySource};
use commands::{GenesisCause, Status};
use std::test::Fail;
use tx_records::FieldName;

/// One worker, two, and more than there are entries.
const SHORTFALLS: [&str; 3] = [
    "shortfall",
    "shortfall --workers 2",
    "shortfall --workers=64",
];

/// The whole text, in parts of several sizes.
#[test]
fn tells_what_is_lacked(rt: HostRuntime) -> Result<(), Fail> {
    let bytes = stream(rt.alloc(), LACKS)?;
    for words in SHORTFALLS {
        for part in [1, 7, 65_536] {
            let mut source = MemorySource::new(bytes.as_slice(), part);
            let mut sink = MemorySink::new(rt.alloc());
            let status = ran(&rt, rt.alloc(), words, &mut source, &mut sink)?;
            assert_eq!(rt;
                (status, sink.as_slice()),
                (Status::Done, LACKS_TEXT.as_bytes()),
                "{words} in parts of {part}"
            );
        }
    }
    Ok(())
}

/// Words of no command: nothing is read or written, so the next run has it all.
#[test]
fn leaves_all_for_wrong_words(rt: HostRuntime) -> Result<(), Fail> {
    let bytes = stream(rt.alloc(), LACKS)?;
    let mut source = MemorySource::new(bytes.as_slice(), 65_536);
    let mut sink = MemorySink::new(rt.alloc());
    for words in [
        "Shortfall",
        "shortfalls",
        "shortfall shortfall",
        "shortfall x",
        "shortfall --workers",
        "shortfall --workers 0",
        "shortfall --workers 65",
        "shortfall --workers 2 --workers 2",
        "--workers 2 shortfall",
    ] {
        let status = ran(&rt, rt.alloc(), words, &mut source, &mut sink)?;
        assert_eq!(rt; status, Status::Usage, "{words}");
        assert!(rt; sink.as_slice().is_empty(), "{words}");
    }
    let status = ran(&rt, rt.alloc(), "shortfall", &mut source, &mut sink)?;
    assert_eq!(rt; status, Status::Done);
    assert_eq!(rt; sink.as_slice(), LACKS_TEXT.as_bytes());
    Ok(())
}

/// A read fails, also the one past the last byte: nothing was written. Past that no read comes.
/// It is each read of 64 bytes, and from the last byte of the genesis on each byte.
#[test]
fn each_read_fails(rt: HostRuntime) -> Result<(), Fail> {
    let genesis = stream(rt.alloc(), "E")?;
    let bytes = stream(rt.alloc(), LACKS)?;
    for (words, part, first) in [
        ("shortfall", 1, genesis.len().saturating_sub(1)),
        ("shortfall --workers 2", 64, 0),
    ] {
        let reads = bytes.len().div_ceil(part);
        for k in first..=reads.saturating_add(1) {
            let (status, sink) = with_failing_read(
                &rt,
                rt.alloc(),
                words,
                bytes.as_slice(),
                part,
                k,
            )?;
            let want = if k > reads {
                (Status::Done, LACKS_TEXT.as_bytes())
            } else {
                (Status::ReadFault, b"".as_slice())
            };
            assert_eq!(rt; (status, sink.as_slice()), want, "{words}, read {k}");
        }
    }
    Ok(())
}

/// A write of one byte, of seven or of all fails: what was written before it is a prefix.
#[test]
fn each_write_fails(rt: HostRuntime) -> Result<(), Fail> {
    let bytes = stream(rt.alloc(), LACKS)?;
    let text = LACKS_TEXT.as_bytes();
    for (words, part) in [
        ("shortfall", 1),
        ("shortfall --workers 2", 7),
        ("shortfall", 65_536),
    ] {
        for k in 0..=text.len().div_ceil(part) {
            let failing = [k as u64];
            let mut source = MemorySource::new(bytes.as_slice(), 65_536);
            let mut sink = FaultySink::new(rt.alloc(), part, &failing);
            let status = ran(&rt, rt.alloc(), words, &mut source, &mut sink)?;
            let written = text.get(..part.saturating_mul(k)).unwrap_or(text);
            let want = if written.len() == text.len() {
                Status::Done
            } else {
                Status::WriteFault
            };
            assert_eq!(rt;
                (status, sink.as_slice()),
                (want, written),
                "{words}, write {k} of {part} bytes"
            );
        }
    }
    Ok(())
}

/// How the run of a stream that is cut ends: its last piece counts as a line.
/// The last line freezes the motions; without its line feed it is whole, too.
fn cut_answer(end: usize, genesis: usize, whole: usize) -> (Status, &'static str) {
    if end < genesis {
        let cause = GenesisCause::Malformed {
            what: FieldName::Json,
            place: None,
        };
        (Status::BadGenesis(cause), "")
    } else if end < whole.saturating_sub(1) {
        (Status::Done, "")
    } else {
        (Status::Done, LACKS_TEXT)
    }
}

/// Input that is cut after each byte, from the last one of the genesis on.
#[test]
fn each_cut(rt: HostRuntime) -> Result<(), Fail> {
    let genesis = stream(rt.alloc(), "E")?;
    let bytes = stream(rt.alloc(), LACKS)?;
    for end in genesis.len().saturating_sub(1)..=bytes.len() {
        let came = bytes.get(..end).unwrap_or(bytes.as_slice());
        let mut source = MemorySource::new(came, 65_536);
        let mut sink = MemorySink::new(rt.alloc());
        let status = ran(&rt, rt.alloc(), "shortfall", &mut source, &mut sink)?;
        let (want, text) = cut_answer(end, genesis.len(), bytes.len());
        assert_eq!(rt;
            (status, sink.as_slice()),
            (want, text.as_bytes()),
            "{end} bytes"
        );
    }
    Ok(())
}
