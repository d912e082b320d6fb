//! The parts of a line.
ghost use Rattle.std.specs.Prelude.{◌≡◌, ◌+◌, ◌≤◌, ◌++◌, decimal, flat_map, length, replicate, sum_by};
ghost use Rattle.load_model.specs.Names.{padded};
ghost use Rattle.gen_load.specs.Parts.{part_room, part_text};
ghost use Rattle.gen_load.specs.declared.line.TheConstants.{LINE_MAX};

use crate::line::LineBuffer;
use itoa::Buffer;

/// Zeros, which go before the digits of a name.
const ZEROS: [u8; 64] = [b'0'; 64];

/// A part of a line, by its source.
#[derive(Drop)]
pub(crate) enum Part<'a> {
    Text(&'a str),
    Number(u64),
    /// A number as a hash of 28 bytes.
    Hash28(u64),
    /// A number as a hash of 32 bytes.
    Hash32(u64),
}

/// Adds a number.
fn push_number(line: &mut LineBuffer, n: u64)
    requires room { length line.old + 20 ≤ LINE_MAX }
    ensures text { line.new ≡ line.old ++ decimal n }
    ensures longer { length line.new ≤ length line.old + 20 }
{
    let mut buffer = Buffer::new();
    line.push(buffer.format(n).as_bytes());
}

/// So many zeros.
fn zeros(count: usize) -> &'static [u8]
    requires { count ≤ 64 }
    ensures { result.now ≡ replicate count 48 }
{
    &ZEROS[..count]
}

/// Adds a number, with zeros before its digits up to `width`.
fn push_padded(line: &mut LineBuffer, n: u64, width: usize)
    requires width { (20 ≤ width) × (width ≤ 64) }
    requires room { length line.old + width ≤ LINE_MAX }
    ensures text { line.new ≡ line.old ++ padded width n }
    ensures longer { length line.new ≡ length line.old + width }
{
    let mut buffer = Buffer::new();
    let digits = buffer.format(n);
    line.push(zeros(width - digits.len()));
    line.push(digits.as_bytes());
}

/// Adds a part.
fn push_part(line: &mut LineBuffer, part: &Part<'_>)
    requires room { length line.old + part_room part.now ≤ LINE_MAX }
    ensures text { line.new ≡ line.old ++ part_text part.now }
    ensures longer { length line.new ≤ length line.old + part_room part.now }
{
    match part {
        Part::Text(text) => line.push(text.as_bytes()),
        Part::Number(n) => push_number(line, *n),
        Part::Hash28(n) => push_padded(line, *n, 56),
        Part::Hash32(n) => push_padded(line, *n, 64),
    }
}

/// Adds parts.
pub(crate) fn push_parts(line: &mut LineBuffer, parts: &[Part<'_>])
    requires room { length line.old + sum_by part_room parts.now ≤ LINE_MAX }
    ensures text { line.new ≡ line.old ++ flat_map part_text parts.now }
    ensures longer { length line.new ≤ length line.old + sum_by part_room parts.now }
{
    for part in parts {
        push_part(line, part);
    }
}
