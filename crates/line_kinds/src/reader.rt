//! What reads a line as an item.
use crate::kind::LineKind;
use crate::line::read_line;
use no_memory::NoMemory;

/// Reads lines as items: each item of a form has one line, and no other line reads as it.
pub trait LineReader {
    /// What a line says.
    type Item: Drop;

    ghost use Rattle.std.specs.Prelude.{ℕ, Bool, IfOk, List};
    ghost use Rattle.line_kinds.specs.Kinds.{ReadsLine};

    // the words of its line
    ghost words: { Self.Item → List (List ℕ) };

    // which items have a line
    ghost form: { Self.Item → Bool };

    /// Reads a line: `Some` if and only if it is the line of an item of the form, word for word.
    /// The buffer loses what it held.
    fn read_line(text: &mut Vec<u8>, line: &[u8]) -> Result<Option<Self::Item>, NoMemory>
        ensures { IfOk result (ReadsLine form words line.now) };
}

impl<K: LineKind> LineReader for K {
    type Item = K::Item;

    ghost words = { K.words };

    ghost form = { K.form };

    fn read_line(text: &mut Vec<u8>, line: &[u8]) -> Result<Option<K::Item>, NoMemory> {
        read_line::<K>(text, line)
    }
}
