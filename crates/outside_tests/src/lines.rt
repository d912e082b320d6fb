//! Lines read from memory and readers, pieces put to sinks and writers, with faults in mid-stream.
use byte_lines::{
    FaultySink, FaultySource, Line, LineFault, Lines, MemorySink, MemorySource, ReaderSource, Sink,
    SinkFault, Source, WriterSink, put_all,
};
use std::alloc::Global;
use std::io;
use std::io::{Read, Write};
use std::process::Abort;

/// What `next` should come to, with the text and the number then.
#[derive(Drop)]
struct Want(Result<Line, LineFault>, &'static [u8], u64);

/// Reads from the source once for each that is wanted.
fn reads<S: Source>(rt: &impl Abort, mut lines: Lines, source: &mut S, wants: &[Want]) {
    for want in wants {
        assert!(rt; lines.next(source) == want.0, "in line {}", want.2);
        assert!(rt;
            lines.text() == want.1 && lines.number() == want.2,
            "in line {}",
            want.2
        );
    }
}

/// Puts each piece, and each either goes or fails.
fn puts<K: Sink>(rt: &impl Abort, sink: &mut K, pieces: &[(&'static [u8], bool)]) {
    for (piece, goes) in pieces {
        let wanted = if *goes {
            Ok(())
        } else {
            Err(SinkFault::WriteFault)
        };
        assert!(rt; put_all(sink, *piece) == wanted);
    }
}

/// A writer that takes nothing.
#[derive(Drop)]
struct Broken;

impl Write for Broken {
    fn write(&mut self, _buf: &[u8]) -> io::Result<usize> {
        Ok(0)
    }

    fn flush(&mut self) -> io::Result<()> {
        Ok(())
    }
}

/// A writer that takes all, counts how often it was flushed, and fails at one of these.
#[derive(Drop)]
struct Watched {
    flushes: u8,
    failing: u8,
}

impl Write for Watched {
    fn write(&mut self, buf: &[u8]) -> io::Result<usize> {
        Ok(buf.len())
    }

    fn flush(&mut self) -> io::Result<()> {
        self.flushes = self.flushes.saturating_add(1);
        if self.flushes == self.failing {
            return Err(io::ErrorKind::Other.into());
        }
        Ok(())
    }
}

/// A writer that takes all, counts its writes, and fails at the second alone.
#[derive(Drop)]
struct Stumbling {
    calls: u8,
}

impl Write for Stumbling {
    fn write(&mut self, buf: &[u8]) -> io::Result<usize> {
        self.calls = self.calls.saturating_add(1);
        if self.calls == 2 {
            return Err(io::ErrorKind::Other.into());
        }
        Ok(buf.len())
    }

    fn flush(&mut self) -> io::Result<()> {
        Ok(())
    }
}

/// A reader that gives a byte at each read, fails at the second, and keeps how many were asked for.
#[derive(Drop)]
struct Failing {
    calls: u8,
    asked: usize,
}

impl Read for Failing {
    fn read(&mut self, buf: &mut [u8]) -> io::Result<usize> {
        self.asked = buf.len();
        self.calls = self.calls.saturating_add(1);
        if self.calls == 2 {
            return Err(io::ErrorKind::Other.into());
        }
        let Some(first) = buf.first_mut() else {
            return Ok(0);
        };
        *first = if self.calls == 4 { b'\n' } else { b'a' };
        Ok(1)
    }
}

#[test]
fn reads_any_parts(rt: HostRuntime) {
    let wants = [
        Want(Ok(Line::Whole), b"one", 1),
        Want(Ok(Line::Whole), b"", 2),
        Want(Ok(Line::TooLong), b"", 3),
        Want(Ok(Line::Whole), b"five5", 4),
        Want(Ok(Line::Whole), b"last", 5),
        Want(Ok(Line::End), b"last", 5),
        Want(Ok(Line::End), b"last", 5),
    ];
    for part in [1, 2, 7, 65_536] {
        let mut source = MemorySource::new(b"one\n\ntoolong\nfive5\nlast", part);
        let lines = Lines::new(rt.alloc(), 5, 23);
        reads(&rt, lines, &mut source, wants.as_slice());
    }
}

/// The limit of a stream ends it; a fault does not.
#[test]
fn stops_at_the_limit_alone(rt: HostRuntime) {
    let wants = [
        Want(Ok(Line::Whole), b"ab", 1),
        Want(Err(LineFault::TooMuch), b"ab", 1),
        Want(Err(LineFault::TooMuch), b"ab", 1),
    ];
    let mut source = MemorySource::new(b"ab\ncd", 65_536);
    let lines = Lines::new(rt.alloc(), 16_777_216, 4);
    reads(&rt, lines, &mut source, wants.as_slice());
    let wants = [
        Want(Ok(Line::Whole), b"ab", 1),
        Want(Err(LineFault::ReadFault), b"ab", 1),
        Want(Ok(Line::Whole), b"cd", 2),
        Want(Ok(Line::End), b"cd", 2),
    ];
    let mut source = FaultySource::new(b"ab\ncd\n", 4, &[1]);
    let lines = Lines::new(rt.alloc(), 16, 16);
    reads(&rt, lines, &mut source, wants.as_slice());
}

/// A reader's error is a fault, and reading goes on after it; it is asked for as much as fits.
#[test]
fn reads_from_readers(rt: HostRuntime) {
    let mut failing = Failing { calls: 0, asked: 0 };
    let wants = [
        Want(Err(LineFault::ReadFault), b"", 0),
        Want(Ok(Line::Whole), b"aa", 1),
    ];
    let mut source = ReaderSource::new(&mut failing);
    let lines = Lines::new(rt.alloc(), 16, 1_000_000);
    reads(&rt, lines, &mut source, wants.as_slice());
    drop(source);
    assert!(rt; failing.calls == 4 && failing.asked == 65_536);
}

/// A prefix goes before a fault, and what follows it goes after.
#[test]
fn puts_a_prefix_before_a_fault(rt: HostRuntime) {
    let mut sink = FaultySink::new(rt.alloc(), 2, &[1]);
    let pieces = [(b"abcde".as_slice(), false), (b"cde", true)];
    puts(&rt, &mut sink, pieces.as_slice());
    assert!(rt; sink.as_slice() == b"abcde".as_slice());
    let mut sink = MemorySink::new(rt.alloc());
    puts(
        &rt,
        &mut sink,
        [(b"ab".as_slice(), true), (b"cd", true)].as_slice(),
    );
    assert!(rt; sink.as_slice() == b"abcd".as_slice());
}

/// Each write is flushed; after a failed flush nothing is written. Writing nothing is a fault.
#[test]
fn flushes_each_write(rt: HostRuntime) {
    let mut watched = Watched {
        flushes: 0,
        failing: 2,
    };
    let mut sink = WriterSink::new(&mut watched);
    let pieces = [(b"ab".as_slice(), true), (b"cd", false), (b"ef", false)];
    puts(&rt, &mut sink, pieces.as_slice());
    drop(sink);
    assert!(rt; watched.flushes == 2);
    let mut bytes = Vec::new(rt.alloc());
    let mut sink = WriterSink::new(&mut bytes);
    puts(&rt, &mut sink, [(b"ab".as_slice(), true)].as_slice());
    drop(sink);
    assert!(rt; bytes.as_slice() == b"ab".as_slice());
    let mut stuck = WriterSink::new(Broken);
    puts(&rt, &mut stuck, [(b"ab".as_slice(), false)].as_slice());
}

/// A write that failed is a fault, and is not tried again; the next one is.
#[test]
fn writes_each_piece_once(rt: HostRuntime) {
    let mut stumbling = Stumbling { calls: 0 };
    let mut sink = WriterSink::new(&mut stumbling);
    let pieces = [(b"ab".as_slice(), true), (b"cd", false), (b"ef", true)];
    puts(&rt, &mut sink, pieces.as_slice());
    drop(sink);
    assert!(rt; stumbling.calls == 3);
}
