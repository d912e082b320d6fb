//! A line cut into its words.
ghost use Rattle.std.specs.Prelude.{◌≡◌, option_and_then};
ghost use Rattle.line_kinds.specs.Cuts.{words_in};

use crate::kind::LineKind;

/// The most words of a line.
const MOST_WORDS: usize = 20;

/// What the words of a text read as.
fn read_text<K: LineKind>(text: &str) -> Option<K::Item>
    ensures { result ≡ option_and_then K.reading (words_in text.now) }
{
    let mut words = [""; MOST_WORDS];
    let mut rest = text;
    for place in 0..MOST_WORDS {
        match rest.split_once(' ') {
            Some((word, others)) => {
                words[place] = word;
                rest = others;
            }
            None => {
                words[place] = rest;
                return K::read(&words[..place + 1]);
            }
        }
    }
    None
}

/// What the words of a line read as.
pub(crate) fn read_words<K: LineKind>(line: &[u8]) -> Option<K::Item>
    ensures { result ≡ option_and_then K.reading (words_in line.now) }
{
    match std::str::from_utf8(line) {
        Ok(text) => read_text::<K>(text),
        Err(_) => None,
    }
}
