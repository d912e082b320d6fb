//! The first line of a checkpoint, and where the chain is.
ghost use Rattle.std.specs.Prelude.{◌≡◌, ℕ, option_map};
ghost use Rattle.book_kinds.specs.of_checkpoint_model.Checkpoint.{checkpoint_words};
ghost use Rattle.run_model.specs.World.{World};
ghost use Rattle.book_kinds.specs.Pools.{halves};
ghost use Rattle.state_kinds.specs.Heads.{head_line, u32_of, version_of};

use book_kinds::of_state_lines::push_now_line;
use line_kinds::{LineKind, read_number, word};
use no_memory::NoMemory;
use report::{Word, push_line};

/// Does nothing. A law: the first line of a checkpoint is that of its numbers.
pub fn heads_are_of_checkpoints()
    ensures { (w : World) (line : ℕ) →
        head_line (line, w.ledger.network, w.ledger.epoch_length, w.counted) ≡ checkpoint_words w line }
{}

/// What is before the first point and after it.
fn cut_at_point(text: &str) -> Option<(&str, &str)>
    ensures { option_map (λ p. (p.0.now, p.1.now)) result ≡ halves 46 text.now }
{
    text.split_once('.')
}

/// Reads a number of 32 bits.
fn read_u32(text: &str) -> Option<u32>
    ensures { result ≡ u32_of text.now }
{
    let n = read_number(text)?;
    if n < 1 << 32 { Some(n as u32) } else { None }
}

/// Reads a version: major, a point, minor.
fn read_version(text: &str) -> Option<(u32, u32)>
    ensures { result ≡ version_of text.now }
{
    let (major, minor) = cut_at_point(text)?;
    let major = read_u32(major)?;
    let minor = read_u32(minor)?;
    Some((major, minor))
}

/// The line of where the chain is: slot, epoch, version and dormant count. (Own)
pub struct NowLines;

impl LineKind for NowLines {
    type Item = (u64, u64, (u32, u32), u64);

    ghost use Rattle.state_kinds.specs.Heads.{is_now_line, now_in, now_line};

    ghost words = { now_line };

    ghost form = { is_now_line };

    ghost reading = { now_in };

    fn laws() {}

    fn read(texts: &[&str]) -> Option<(u64, u64, (u32, u32), u64)> {
        let slot = read_number(word(texts, 2))?;
        let epoch = read_number(word(texts, 4))?;
        let version = read_version(word(texts, 6))?;
        let dormant = read_number(word(texts, 8))?;
        Some((slot, epoch, version, dormant))
    }

    fn push(now: &(u64, u64, (u32, u32), u64), out: &mut Vec<u8>) -> Result<(), NoMemory> {
        push_now_line(out, 0, now.0, now.1, now.2, now.3)
    }
}

/// The first line of a checkpoint: line, network, length of an epoch, count. (Own)
/// Whether the numbers are those of a state is not asked.
pub struct HeadLines;

impl LineKind for HeadLines {
    type Item = (u64, u64, u64, u64);

    ghost use Rattle.state_kinds.specs.Heads.{head_in, head_line, is_head_line};

    ghost words = { head_line };

    ghost form = { is_head_line };

    ghost reading = { head_in };

    fn laws() {}

    fn read(texts: &[&str]) -> Option<(u64, u64, u64, u64)> {
        let line = read_number(word(texts, 3))?;
        let network = read_number(word(texts, 5))?;
        let epoch_length = read_number(word(texts, 7))?;
        let counted = read_number(word(texts, 9))?;
        Some((line, network, epoch_length, counted))
    }

    fn push(head: &(u64, u64, u64, u64), out: &mut Vec<u8>) -> Result<(), NoMemory> {
        push_line(
            out,
            0,
            &[
                Word::Text("checkpoint"),
                Word::Text("1"),
                Word::Text("line"),
                Word::Number(head.0),
                Word::Text("network"),
                Word::Number(head.1),
                Word::Text("length"),
                Word::Number(head.2),
                Word::Text("counted"),
                Word::Number(head.3),
            ],
        )
    }
}
