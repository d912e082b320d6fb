//! A line, read as an item.
ghost use Rattle.std.specs.Prelude.{◌≡◌, IfOk};
ghost use Rattle.line_kinds.specs.Cuts.{inside};
ghost use Rattle.line_kinds.specs.Kinds.{ReadsLine};

use crate::cut::read_words;
use crate::kind::LineKind;
use no_memory::NoMemory;

/// A line behind the number 0, without that and the line feed.
fn inner(line: &[u8]) -> &[u8]
    ensures { result.now ≡ inside line.now }
{
    if line.len() < 3 {
        &line[line.len()..]
    } else {
        &line[2..line.len() - 1]
    }
}

/// Reads a line as an item of the kind: `Some` if and only if the item has the form of the kind
/// and the line is its line, word for word. The buffer loses what it held.
pub fn read_line<K: LineKind>(text: &mut Vec<u8>, line: &[u8]) -> Result<Option<K::Item>, NoMemory>
    ensures { IfOk result (ReadsLine K.form K.words line.now) }
{
    // (laws: what is printed reads, and nothing else)
    K::laws();
    let Some(item) = read_words::<K>(line) else {
        return Ok(None);
    };
    text.clear();
    K::push(&item, text)?;
    if inner(text.as_slice()) == line {
        Ok(Some(item))
    } else {
        Ok(None)
    }
}
