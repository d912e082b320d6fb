//! Sources and sinks in memory.
ghost use Rattle.std.specs.Prelude.{◌≡◌, ◌<◌, ◌↔◌, [], Some, length, min, IsErr, IfOk, is_ok, if◌then◌else◌, Contains};
ghost use Rattle.byte_lines.specs.InMemory.{one_more, faults_after};
ghost use Rattle.byte_lines.specs.Sources.{IsRead};
ghost use Rattle.byte_lines.specs.Sinks.{IsWrite};

use super::sink::{Sink, SinkFault};
use super::source::{ReadFault, Source};
use std::alloc::Global;
use std::marker::Model;

/// A source of the bytes of a slice; it never fails.
#[derive(Debug, Drop)]
pub struct MemorySource<'a> {
    rest: &'a [u8],
    part: usize,
}

impl<'a> Model for MemorySource<'a> {
    ghost use Rattle.std.specs.Prelude.{◌<◌};
    ghost use Rattle.byte_lines.specs.InMemory.{Given};

    ghost Value = { Given };

    ghost view = { λ a. record { left = a.rest.now; part = a.part } };

    ghost invariant = { λ a. 0 < a.part };
}

impl<'a> MemorySource<'a> {
    /// One read gives at most `part` bytes.
    pub fn new(bytes: &'a [u8], part: usize) -> Self
        requires { 0 < part }
        ensures { result ≡ record { left = bytes.now; part = part } }
    {
        MemorySource { rest: bytes, part }
    }
}

impl Source for MemorySource<'_> {
    ghost left = { λ source. Some source.left };

    ghost faults = { λ _. 0 };

    fn read(&mut self, into: &mut [u8]) -> Result<usize, ReadFault>
        requires { 0 < length into.old }
        ensures reads { IsRead (Some self.old.left) (Some self.new.left) 0 0 into.new result }
        ensures count { result ≡ Ok (min (min self.old.part (length self.old.left)) (length into.old)) }
        ensures part { self.new.part ≡ self.old.part }
    {
        let count = self.part.min(self.rest.len()).min(into.len());
        let (front, rest) = self.rest.split_at(count);
        into[..count].copy_from_slice(front);
        self.rest = rest;
        Ok(count)
    }
}

/// A source of the bytes of a slice. It fails at the calls in a list of numbers, from 0.
#[derive(Debug, Drop)]
pub struct FaultySource<'a> {
    inner: MemorySource<'a>,
    failing: &'a [u64],
    calls: u64,
    faults: u64,
}

impl<'a> Model for FaultySource<'a> {
    ghost use Rattle.byte_lines.specs.InMemory.{FaultyGiven};

    ghost Value = { FaultyGiven };

    ghost view = { λ a. record {
      left = a.inner.left;
      part = a.inner.part;
      failing = a.failing.now;
      calls = a.calls;
      faults = a.faults;
    } };
}

impl<'a> FaultySource<'a> {
    /// One read gives at most `part` bytes.
    pub fn new(bytes: &'a [u8], part: usize, failing: &'a [u64]) -> Self
        requires { 0 < part }
        ensures { result ≡ record { left = bytes.now; part = part; failing = failing.now; calls = 0; faults = 0 } }
    {
        FaultySource {
            inner: MemorySource::new(bytes, part),
            failing,
            calls: 0,
            faults: 0,
        }
    }
}

impl Source for FaultySource<'_> {
    ghost left = { λ source. Some source.left };

    ghost faults = { λ source. source.faults };

    fn read(&mut self, into: &mut [u8]) -> Result<usize, ReadFault>
        requires { 0 < length into.old }
        ensures reads { IsRead (Some self.old.left) (Some self.new.left) self.old.faults self.new.faults
            into.new result }
        ensures fails { IsErr result ↔ Contains self.old.failing self.old.calls }
        ensures count { IfOk result (λ n. n ≡ min (min self.old.part (length self.old.left)) (length into.old)) }
        ensures calls { self.new ≡ record self.old {
          left = self.new.left;
          calls = one_more self.old.calls;
          faults = (if is_ok result then self.old.faults else one_more self.old.faults);
        } }
    {
        let fails = self.failing.contains(&self.calls);
        self.calls = self.calls.saturating_add(1);
        if fails {
            self.faults = self.faults.saturating_add(1);
            return Err(ReadFault);
        }
        self.inner.read(into)
    }
}

/// A sink that keeps the bytes. It fails only when it is out of memory.
#[derive(Debug, Drop)]
pub struct MemorySink {
    bytes: Vec<u8>,
}

impl Model for MemorySink {
    ghost use Rattle.std.specs.Prelude.{ℕ, List};

    ghost Value = { List ℕ };

    ghost view = { λ a. a.bytes.items };
}

impl MemorySink {
    /// An empty sink.
    pub fn new(alloc: Global) -> Self
        ensures { result ≡ [] }
    {
        MemorySink {
            bytes: Vec::new(alloc),
        }
    }

    /// The bytes that the sink took.
    pub fn as_slice(&self) -> &[u8]
        ensures { result.now ≡ self.now }
    {
        &self.bytes
    }
}

impl Sink for MemorySink {
    ghost taken = { λ bytes. Some bytes };

    ghost faults = { λ _. 0 };

    fn write(&mut self, piece: &[u8]) -> Result<usize, SinkFault>
        requires { 0 < length piece.now }
        ensures writes { IsWrite (Some self.old) (Some self.new) 0 0 piece.now result }
        ensures whole { IfOk result (λ n. n ≡ length piece.now) }
    {
        self.bytes.extend_from_slice(piece)?;
        Ok(piece.len())
    }
}

/// A sink that keeps the bytes. It fails at the calls in a list of numbers, from 0.
#[derive(Debug, Drop)]
pub struct FaultySink<'a> {
    inner: MemorySink,
    part: usize,
    failing: &'a [u64],
    calls: u64,
    faults: u64,
}

impl<'a> Model for FaultySink<'a> {
    ghost use Rattle.std.specs.Prelude.{◌<◌};
    ghost use Rattle.byte_lines.specs.InMemory.{FaultyTaken};

    ghost Value = { FaultyTaken };

    ghost view = { λ a. record {
      bytes = a.inner;
      part = a.part;
      failing = a.failing.now;
      calls = a.calls;
      faults = a.faults;
    } };

    ghost invariant = { λ a. 0 < a.part };
}

impl<'a> FaultySink<'a> {
    /// One write takes at most `part` bytes.
    pub fn new(alloc: Global, part: usize, failing: &'a [u64]) -> Self
        requires { 0 < part }
        ensures { result ≡ record { bytes = []; part = part; failing = failing.now; calls = 0; faults = 0 } }
    {
        FaultySink {
            inner: MemorySink::new(alloc),
            part,
            failing,
            calls: 0,
            faults: 0,
        }
    }

    /// The bytes that the sink took.
    pub fn as_slice(&self) -> &[u8]
        ensures { result.now ≡ self.now.bytes }
    {
        self.inner.as_slice()
    }
}

impl Sink for FaultySink<'_> {
    ghost taken = { λ sink. Some sink.bytes };

    ghost faults = { λ sink. sink.faults };

    fn write(&mut self, piece: &[u8]) -> Result<usize, SinkFault>
        requires { 0 < length piece.now }
        ensures writes { IsWrite (Some self.old.bytes) (Some self.new.bytes) self.old.faults self.new.faults
            piece.now result }
        ensures fails { (result ≡ Err SinkFault.WriteFault) ↔ Contains self.old.failing self.old.calls }
        ensures count { IfOk result (λ n. n ≡ min self.old.part (length piece.now)) }
        ensures calls { self.new ≡ record self.old {
          bytes = self.new.bytes;
          calls = one_more self.old.calls;
          faults = self.new.faults;
        } }
        ensures faults { self.new.faults ≡ faults_after result self.old.faults }
    {
        let fails = self.failing.contains(&self.calls);
        self.calls = self.calls.saturating_add(1);
        if fails {
            self.faults = self.faults.saturating_add(1);
            return Err(SinkFault::WriteFault);
        }
        let count = self.part.min(piece.len());
        self.inner.write(&piece[..count])
    }
}
