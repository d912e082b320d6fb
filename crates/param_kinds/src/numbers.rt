//! Values of numbers, and of a hash.
ghost use Rattle.std.specs.Prelude.{◌≡◌};
ghost use Rattle.param_kinds.specs.Values.{u16_of};
ghost use Rattle.state_kinds.specs.Heads.{u32_of};

use gov_ids::hash32;
use line_kinds::{LineKind, read_number, word};
use no_memory::NoMemory;
use report::{Word, push_line};

/// Reads a number of 32 bits.
fn read_u32(text: &str) -> Option<u32>
    ensures { result ≡ u32_of text.now }
{
    let n = read_number(text)?;
    if n < 1 << 32 { Some(n as u32) } else { None }
}

/// Reads a number of 16 bits.
fn read_u16(text: &str) -> Option<u16>
    ensures { result ≡ u16_of text.now }
{
    let n = read_number(text)?;
    if n < 1 << 16 { Some(n as u16) } else { None }
}

/// A number of 64 bits.
pub(crate) struct Number64;

impl LineKind for Number64 {
    type Item = u64;

    ghost use Rattle.text_model.specs.ParamLines.{number};
    ghost use Rattle.tx_records.specs.Limits.{is_u64};
    ghost use Rattle.param_kinds.specs.Values.{u64_in};

    ghost words = { number };

    ghost form = { is_u64 };

    ghost reading = { u64_in };

    fn laws() {}

    fn read(texts: &[&str]) -> Option<u64> {
        read_number(word(texts, 0))
    }

    fn push(n: &u64, out: &mut Vec<u8>) -> Result<(), NoMemory> {
        push_line(out, 0, &[Word::Number(*n)])
    }
}

/// A number of 32 bits.
pub(crate) struct Number32;

impl LineKind for Number32 {
    type Item = u32;

    ghost use Rattle.text_model.specs.ParamLines.{number};
    ghost use Rattle.tx_records.specs.Limits.{is_u32};
    ghost use Rattle.param_kinds.specs.Values.{u32_in};

    ghost words = { number };

    ghost form = { is_u32 };

    ghost reading = { u32_in };

    fn laws() {}

    fn read(texts: &[&str]) -> Option<u32> {
        read_u32(word(texts, 0))
    }

    fn push(n: &u32, out: &mut Vec<u8>) -> Result<(), NoMemory> {
        push_line(out, 0, &[Word::Number(u64::from(*n))])
    }
}

/// A number of 16 bits.
pub(crate) struct Number16;

impl LineKind for Number16 {
    type Item = u16;

    ghost use Rattle.text_model.specs.ParamLines.{number};
    ghost use Rattle.text_forms.specs.Ids.{is_u16};
    ghost use Rattle.param_kinds.specs.Values.{u16_in};

    ghost words = { number };

    ghost form = { is_u16 };

    ghost reading = { u16_in };

    fn laws() {}

    fn read(texts: &[&str]) -> Option<u16> {
        read_u16(word(texts, 0))
    }

    fn push(n: &u16, out: &mut Vec<u8>) -> Result<(), NoMemory> {
        push_line(out, 0, &[Word::Number(u64::from(*n))])
    }
}

/// Two numbers of 64 bits.
pub(crate) struct TwoNumbers;

impl LineKind for TwoNumbers {
    type Item = (u64, u64);

    ghost use Rattle.text_model.specs.ParamLines.{two_numbers};
    ghost use Rattle.text_forms.specs.Ids.{are_u64};
    ghost use Rattle.param_kinds.specs.Values.{two_u64_in};

    ghost words = { two_numbers };

    ghost form = { are_u64 };

    ghost reading = { two_u64_in };

    fn laws() {}

    fn read(texts: &[&str]) -> Option<(u64, u64)> {
        let memory = read_number(word(texts, 0))?;
        let steps = read_number(word(texts, 1))?;
        Some((memory, steps))
    }

    fn push(pair: &(u64, u64), out: &mut Vec<u8>) -> Result<(), NoMemory> {
        push_line(out, 0, &[Word::Number(pair.0), Word::Number(pair.1)])
    }
}

/// A hash of 32 bytes.
pub(crate) struct Hash32;

impl LineKind for Hash32 {
    type Item = [u8; 32];

    ghost use Rattle.text_model.specs.ParamLines.{hash};
    ghost use Rattle.text_forms.specs.Ids.{is_hash};
    ghost use Rattle.param_kinds.specs.Values.{hash_in};

    ghost words = { hash };

    ghost form = { is_hash 32 };

    ghost reading = { hash_in };

    fn laws() {}

    fn read(texts: &[&str]) -> Option<[u8; 32]> {
        hash32(word(texts, 0)).ok()
    }

    fn push(hash: &[u8; 32], out: &mut Vec<u8>) -> Result<(), NoMemory> {
        push_line(out, 0, &[Word::Hash(hash)])
    }
}
