ghost use Rattle.std.specs.Prelude.{◌≡◌, ◌++◌, ◌∷◌, decimal, map, flat_map, [], OnOk};
ghost use Rattle.text_model.specs.Words.{line_of, spaced};
ghost use Rattle.report.specs.Amounts.{amount_words};

use itoa::{Buffer, Integer};
use no_memory::NoMemory;

/// Adds the digits of a number. After `NoMemory` the buffer may hold anything.
pub fn push_digits<I: Integer>(line: &mut Vec<u8>, n: I) -> Result<(), NoMemory>
    ensures { OnOk result (line.new.items ≡ line.old.items ++ I.text n) }
{
    let mut buffer = Buffer::new();
    line.extend_from_slice(buffer.format(n).as_bytes())?;
    Ok(())
}

/// Adds a word after a space.
pub(crate) fn push_word(line: &mut Vec<u8>, word: &str) -> Result<(), NoMemory>
    ensures { OnOk result (line.new.items ≡ line.old.items ++ 32 ∷ word.now) }
{
    line.push(b' ')?;
    line.extend_from_slice(word.as_bytes())?;
    Ok(())
}

/// Adds a number after a space.
pub(crate) fn push_number<I: Integer>(line: &mut Vec<u8>, n: I) -> Result<(), NoMemory>
    ensures { OnOk result (line.new.items ≡ line.old.items ++ 32 ∷ I.text n) }
{
    line.push(b' ')?;
    push_digits(line, n)
}

/// Adds words, each after a space.
pub(crate) fn push_words(line: &mut Vec<u8>, words: &[&str]) -> Result<(), NoMemory>
    ensures { OnOk result (line.new.items ≡ line.old.items ++ spaced (map (λ w. w.now) words.now)) }
{
    for word in words {
        push_word(line, word)?;
    }
    Ok(())
}

/// Adds amounts, each after its name.
pub(crate) fn push_amounts(line: &mut Vec<u8>, amounts: &[(&str, u128)]) -> Result<(), NoMemory>
    ensures { OnOk result (line.new.items ≡
        line.old.items ++ spaced (flat_map (λ a. amount_words a.0.now a.1) amounts.now)) }
{
    for (name, amount) in amounts {
        push_word(line, name)?;
        push_number(line, *amount)?;
    }
    Ok(())
}

/// Replaces the line by the number of its record's line.
pub(crate) fn begin(line: &mut Vec<u8>, number: u64) -> Result<(), NoMemory>
    ensures { OnOk result (line.new.items ≡ decimal number) }
{
    line.clear();
    push_digits(line, number)
}

/// Ends a line. After `NoMemory` the buffer may hold anything.
pub fn end_line(line: &mut Vec<u8>) -> Result<(), NoMemory>
    ensures { OnOk result (line.new.items ≡ line.old.items ++ 10 ∷ []) }
{
    line.push(b'\n')?;
    Ok(())
}

/// Replaces the buffer by the line of these words. After `NoMemory` it may hold anything. (Own)
pub fn words_line(line: &mut Vec<u8>, number: u64, words: &[&str]) -> Result<(), NoMemory>
    ensures { OnOk result (line.new.items ≡ line_of number (map (λ w. w.now) words.now)) }
{
    begin(line, number)?;
    push_words(line, words)?;
    end_line(line)
}
