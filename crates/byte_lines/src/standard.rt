//! A reader of `std::io` as a source, and a writer as a sink.
ghost use Rattle.std.specs.Prelude.{◌≡◌, ◌<◌, ◌≤◌, IfOk, IfSome, IfNone, length, take, is_ok, if◌then◌else◌};
ghost use Rattle.std.specs.Io.KnownBytes.{append_known};
ghost use Rattle.byte_lines.specs.Sources.{IsRead};
ghost use Rattle.byte_lines.specs.Sinks.{IsWrite};
ghost use Rattle.byte_lines.specs.InMemory.{one_more};

use super::sink::{Sink, SinkFault};
use super::source::{ReadFault, Source};
use std::io::{Read, Write};
use std::marker::Model;
use std::snapshot::Snapshot;

/// A source over `reader`: each read is one read of it. It counts each error.
/// It reports the bytes that the reader reports, if the reader did so when the source was made.
#[derive(Drop)]
pub struct ReaderSource<R: Read> {
    reader: R,
    first: Snapshot<R>,
    faults: u64,
}

impl<R: Read> Model for ReaderSource<R> {
    ghost use Rattle.byte_lines.specs.Adapters.{GoesOnTelling, ReaderTells, told_since};

    ghost Value = { ReaderTells };

    ghost view = { λ a. record {
      left = told_since (R.remaining a.first.value) (R.remaining a.reader);
      faults = a.faults;
    } };

    ghost invariant = { λ a. GoesOnTelling (R.remaining a.first.value) (R.remaining a.reader) };
}

impl<R: Read> ReaderSource<R> {
    /// A source over a reader, with no fault counted.
    pub fn new(reader: R) -> Self
        ensures { result ≡ record { left = R.remaining reader; faults = 0 } }
    {
        let first = Snapshot::of(&reader);
        ReaderSource {
            reader,
            first,
            faults: 0,
        }
    }
}

impl<R: Read> Source for ReaderSource<R> {
    ghost left = { λ source. source.left };

    ghost faults = { λ source. source.faults };

    fn read(&mut self, into: &mut [u8]) -> Result<usize, ReadFault>
        ensures reads { 0 < length into.old →
            IsRead self.old.left self.new.left self.old.faults self.new.faults into.new result }
        ensures fits { IfOk result (λ n. n ≤ length into.new) }
        ensures count { self.new.faults ≡ (if is_ok result then self.old.faults else one_more self.old.faults) }
    {
        match self.reader.read(into) {
            Ok(count) => Ok(count),
            Err(_) => {
                self.faults = self.faults.saturating_add(1);
                Err(ReadFault)
            }
        }
    }
}

/// A sink over `writer`, with a flush after each write. It counts each error and empty write.
/// It reports the bytes that the writer reports, if the writer did so when the sink was made.
/// Bytes whose flush failed are not reported, and after that each write fails.
#[derive(Drop)]
pub struct WriterSink<W: Write> {
    writer: W,
    first: Snapshot<W>,
    unflushed: usize,
    faults: u64,
}

impl<W: Write> Model for WriterSink<W> {
    ghost use Rattle.byte_lines.specs.Adapters.{GoesOnTelling, WriterTells, flushed_of, told_since};

    ghost Value = { WriterTells };

    ghost view = { λ a. record {
      taken = flushed_of (told_since (W.contents a.first.value) (W.contents a.writer)) a.unflushed;
      faults = a.faults;
    } };

    ghost invariant = { λ a. GoesOnTelling (W.contents a.first.value) (W.contents a.writer) };
}

impl<W: Write> WriterSink<W> {
    /// A sink over a writer, with no fault counted.
    pub fn new(writer: W) -> Self
        ensures { result ≡ record { taken = W.contents writer; faults = 0 } }
    {
        let first = Snapshot::of(&writer);
        WriterSink {
            writer,
            first,
            unflushed: 0,
            faults: 0,
        }
    }

    /// Writes and flushes. Returns how many bytes; none if either failed or nothing was written.
    fn write_through(&mut self, piece: &[u8]) -> Option<usize>
        ensures count { IfSome result (λ n. (0 < n) × (n ≤ length piece.now)) }
        ensures took { IfSome result (λ n. self.new.taken ≡ append_known self.old.taken (take n piece.now)) }
        ensures stays { IfNone result (self.new.taken ≡ self.old.taken) }
        ensures faults { self.new.faults ≡ self.old.faults }
    {
        if self.unflushed > 0 {
            return None;
        }
        let count = self.writer.write(piece).ok()?;
        if self.writer.flush().is_err() {
            self.unflushed = count;
            return None;
        }
        if count == 0 { None } else { Some(count) }
    }
}

impl<W: Write> Sink for WriterSink<W> {
    ghost taken = { λ sink. sink.taken };

    ghost faults = { λ sink. sink.faults };

    fn write(&mut self, piece: &[u8]) -> Result<usize, SinkFault>
        ensures writes { IsWrite self.old.taken self.new.taken self.old.faults self.new.faults piece.now result }
        ensures count { self.new.faults ≡ (if is_ok result then self.old.faults else one_more self.old.faults) }
    {
        match self.write_through(piece) {
            Some(count) => Ok(count),
            None => {
                self.faults = self.faults.saturating_add(1);
                Err(SinkFault::WriteFault)
            }
        }
    }
}
