//! The stream as a source of bytes.
ghost use Rattle.std.specs.Prelude.{◌≡◌, ◌<◌, ◌≤◌, [], ◌++◌, Some, IfOk, IsOk, drop, length, take};
ghost use Rattle.byte_lines.specs.Sources.{IsRead};
ghost use Rattle.load_model.specs.Stream.{bytes_of_load};
ghost use Rattle.gen_load.specs.Position.{IsSoundPosition, bytes_from};

use crate::line::LineBuffer;
use crate::next::push_next_line;
use crate::position::{Load, NextLine, Position};
use byte_lines::{ReadFault, Source};
use no_memory::NoMemory;
use std::alloc::Global;
use std::marker::Model;

/// A source of a benchmark stream's bytes. Reads never fail and take no memory.
#[derive(Drop)]
pub struct GenSource {
    load: Load,
    /// The line after `line`.
    position: Position,
    line: LineBuffer,
    /// The number of bytes of `line` that were read.
    offset: usize,
}

impl Model for GenSource {
    ghost use Rattle.std.specs.Prelude.{ℕ, ◌≤◌, List, ◌++◌, drop, length};
    ghost use Rattle.gen_load.specs.Position.{IsSoundPosition, bytes_from};

    // the bytes left
    ghost Value = { List ℕ };

    ghost view = { λ a. drop a.offset a.line ++ bytes_from a.load a.position.next };

    ghost invariant = { λ a. (a.offset ≤ length a.line) × IsSoundPosition a.load a.position };
}

impl GenSource {
    /// The stream of this seed, before its first byte. It takes all memory that reads need.
    pub fn new(alloc: Global, seed: u64, accounts: u32, epochs: u32) -> Result<GenSource, NoMemory>
        requires accounts { (1 ≤ accounts) × (accounts ≤ 1000000) }
        requires epochs { (1 ≤ epochs) × (epochs ≤ 100) }
        ensures { IfOk result (λ source. source ≡ bytes_of_load seed accounts epochs) }
    {
        let line = LineBuffer::new(alloc)?;
        Ok(GenSource {
            load: Load {
                seed,
                accounts,
                epochs,
            },
            position: Position {
                next: NextLine::Genesis,
                spent: 0,
            },
            line,
            offset: 0,
        })
    }
}

/// Writes the next line if `line` is read to its end.
/// Returns how much of the line is read, and the position after it.
fn refill(line: &mut LineBuffer, offset: usize, load: Load, position: Position) -> (usize, Position)
    requires within { offset ≤ length line.old }
    requires sound { IsSoundPosition load position }
    ensures sound { IsSoundPosition load result.1 }
    ensures within { result.0 ≤ length line.new }
    ensures bytes { drop offset line.old ++ bytes_from load position.next ≡
        drop result.0 line.new ++ bytes_from load result.1.next }
    ensures end { length line.new ≤ result.0 → bytes_from load result.1.next ≡ [] }
{
    if offset < line.as_slice().len() {
        return (offset, position);
    }
    line.clear();
    let position = push_next_line(line, load, position);
    (0, position)
}

/// The unread rest of a line.
fn rest_of(line: &[u8], offset: usize) -> &[u8]
    requires { offset ≤ length line.now }
    ensures { result.now ≡ drop offset line.now }
{
    &line[offset..]
}

/// Copies the first bytes of `rest`, as many as `into` has room for, and returns their number.
fn copy_front(rest: &[u8], into: &mut [u8]) -> usize
    requires { 0 < length into.old }
    ensures fits { result ≤ length into.new }
    ensures same { take result into.new ≡ take result rest.now }
    ensures end { result ≡ 0 → rest.now ≡ [] }
    ensures within { result ≤ length rest.now }
{
    let count = rest.len().min(into.len());
    into[..count].copy_from_slice(&rest[..count]);
    count
}

impl Source for GenSource {
    ghost use Rattle.std.specs.Prelude.{Some};

    ghost left = { λ source. Some source };

    ghost faults = { λ _. 0 };

    fn read(&mut self, into: &mut [u8]) -> Result<usize, ReadFault>
        requires { 0 < length into.old }
        ensures reads { IsRead (Some self.old) (Some self.new) 0 0 into.new result }
        ensures never_fails { IsOk result }
    {
        let (offset, position) = refill(&mut self.line, self.offset, self.load, self.position);
        let count = copy_front(rest_of(self.line.as_slice(), offset), into);
        self.offset = offset + count;
        self.position = position;
        Ok(count)
    }
}
