//! Lines of words, with no number before them.
ghost use Rattle.std.specs.Prelude.{◌≡◌, ◌++◌, map, IfOk, OnOk};
ghost use Rattle.load_model.specs.SummaryText.{line_of_words};
ghost use Rattle.load_summary.specs.Words.{word_text};
ghost use Rattle.text_model.specs.Words.{spaced};

use itoa::{Buffer, Integer};
use no_memory::NoMemory;
use std::alloc::Global;

/// A word of a line, as what it is printed from.
#[derive(Drop)]
pub(crate) enum Word<'a> {
    Name(&'a str),
    Number(u64),
    /// A sum of numbers.
    Sum(u128),
}

/// Adds the digits of a number.
fn push_digits<I: Integer>(line: &mut Vec<u8>, n: I) -> Result<(), NoMemory>
    ensures { OnOk result (line.new.items ≡ line.old.items ++ I.text n) }
{
    let mut buffer = Buffer::new();
    line.extend_from_slice(buffer.format(n).as_bytes())?;
    Ok(())
}

/// Adds a word.
fn push_word(line: &mut Vec<u8>, word: &Word<'_>) -> Result<(), NoMemory>
    ensures { OnOk result (line.new.items ≡ line.old.items ++ word_text word.now) }
{
    match word {
        Word::Name(name) => {
            line.extend_from_slice(name.as_bytes())?;
            Ok(())
        }
        Word::Number(n) => push_digits(line, *n),
        Word::Sum(n) => push_digits(line, *n),
    }
}

/// Adds words, each after a space.
fn push_spaced(line: &mut Vec<u8>, words: &[Word<'_>]) -> Result<(), NoMemory>
    ensures { OnOk result (line.new.items ≡ line.old.items ++ spaced (map word_text words.now)) }
{
    for word in words {
        line.push(b' ')?;
        push_word(line, word)?;
    }
    Ok(())
}

/// The line of these words, a space between each two.
pub(crate) fn line_of(alloc: Global, words: &[Word<'_>]) -> Result<Vec<u8>, NoMemory>
    ensures { IfOk result (λ line. line.items ≡ line_of_words (map word_text words.now)) }
{
    let mut line = Vec::new(alloc);
    if let Some((first, others)) = words.split_first() {
        push_word(&mut line, first)?;
        push_spaced(&mut line, others)?;
    }
    line.push(b'\n')?;
    Ok(line)
}
