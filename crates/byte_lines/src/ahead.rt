//! A buffer of bytes that were read and not examined yet.
ghost use Rattle.std.specs.Prelude.{◌≡◌, ◌<◌, ◌≤◌, [], length, drop, IsErr, IfOk, OnErr};
ghost use Rattle.std.specs.Io.KnownBytes.{IsAtEnd, prepend_known};
ghost use Rattle.byte_lines.specs.Faults.{CountsFaults};
ghost use Rattle.byte_lines.specs.Reader.{part_max};
ghost use Rattle.byte_lines.specs.Sources.{IsRead};

use super::lines::LineFault;
use super::source::{ReadFault, Source};
use std::alloc::Global;
use std::marker::Model;

/// The greatest number of bytes that one read asks for.
const PART: usize = 65_536;

/// Bytes of a source, in order. The first `refill` takes the memory for them.
#[derive(Drop)]
pub struct Ahead {
    part: Vec<u8>,
    start: usize,
    end: usize,
}

impl Model for Ahead {
    ghost use Rattle.std.specs.Prelude.{◌≤◌, length, take, drop};
    ghost use Rattle.byte_lines.specs.Buffers.{BytesAhead};
    ghost use Rattle.byte_lines.specs.Reader.{part_max};

    ghost Value = { BytesAhead };

    ghost view = { λ a. record { bytes = drop a.start (take a.end a.part.items); held = length a.part.items } };

    ghost invariant = { λ a. (a.start ≤ a.end) × (a.end ≤ length a.part.items) × (length a.part.items ≤ part_max) };
}

impl Ahead {
    pub fn new(alloc: Global) -> Ahead
        ensures { result ≡ record { bytes = []; held = 0 } }
    {
        Ahead {
            part: Vec::new(alloc),
            start: 0,
            end: 0,
        }
    }

    pub fn as_slice(&self) -> &[u8]
        ensures { result.now ≡ self.now.bytes }
    {
        &self.part[self.start..self.end]
    }

    /// Drops the first `n` bytes.
    pub fn pass(&mut self, n: usize)
        requires { n ≤ length self.old.bytes }
        ensures { self.new ≡ record self.old { bytes = drop n self.old.bytes } }
    {
        self.start += n;
    }

    /// Reads once, at most `max` bytes, into an empty buffer. Returns the count.
    pub fn refill<S: Source>(&mut self, source: &mut S, max: usize) -> Result<usize, LineFault>
        requires empty { self.old.bytes ≡ [] }
        requires room { 0 < max }
        ensures came { IfOk result (λ n. (length self.new.bytes ≡ n) × (n ≤ max)) }
        ensures gave { IfOk result (λ n. S.left source.old ≡ prepend_known self.new.bytes (S.left source.new)) }
        ensures end { IfOk result (λ n. n ≡ 0 → IsAtEnd (S.left source.new)) }
        ensures nothing { OnErr result ((S.left source.new ≡ S.left source.old) × (self.new.bytes ≡ [])) }
        ensures counts { CountsFaults (result ≡ Err LineFault.ReadFault) (S.faults source.old) (S.faults source.new) }
        ensures other { result ≡ Err LineFault.TooMuch → ⊥ }
        ensures holds { (length self.new.bytes ≤ self.new.held) × (self.new.held ≤ part_max) }
    {
        if self.part.is_empty() {
            self.part.resize(PART, 0)?;
        }
        self.start = 0;
        self.end = 0;
        let count = read_front(source, &mut self.part, max)?;
        self.end = count;
        Ok(count)
    }
}

/// Reads once into the first `max` bytes of `part`.
fn read_front<S: Source>(source: &mut S, part: &mut [u8], max: usize) -> Result<usize, ReadFault>
    requires part { 0 < length part.old }
    requires room { 0 < max }
    ensures reads { IsRead (S.left source.old) (S.left source.new) (S.faults source.old) (S.faults source.new)
        part.new result }
    ensures most { IfOk result (λ n. n ≤ max) }
{
    let most = part.len().min(max);
    source.read(&mut part[..most])
}
