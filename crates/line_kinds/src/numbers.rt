//! The words of a line, and numbers in them.
ghost use Rattle.std.specs.Prelude.{◌≡◌, map};
ghost use Rattle.std.specs.Char.{is_ascii_digit};
ghost use Rattle.std.specs.List.{list_all};
ghost use Rattle.line_kinds.specs.Cuts.{word_at};
ghost use Rattle.line_kinds.specs.Numbers.{number_of};

/// The greatest number of digits.
const MOST_DIGITS: usize = 20;

/// The word at a place, from 0; empty past the last.
pub fn word<'a>(words: &[&'a str], place: usize) -> &'a str
    ensures { result.now ≡ word_at place (map (λ w. w.now) words.now) }
{
    match words.get(place) {
        Some(word) => word,
        None => "",
    }
}

/// Whether these are decimal digits.
fn are_digits(bytes: &[u8]) -> bool
    ensures { result ≡ list_all is_ascii_digit bytes.now }
{
    bytes.iter().all(|byte| byte.is_ascii_digit())
}

/// Reads a number of 64 bits: at most 20 decimal digits. (Own)
pub fn read_number(text: &str) -> Option<u64>
    ensures { result ≡ number_of text.now }
{
    if text.len() > MOST_DIGITS || !are_digits(text.as_bytes()) {
        return None;
    }
    text.parse::<u64>().ok()
}
