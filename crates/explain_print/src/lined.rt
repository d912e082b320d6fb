//! What has a line of its own.
ghost use Rattle.std.specs.Prelude.{◌≡◌, ◌∷◌, [], map, OnOk};
ghost use Rattle.report.specs.Taking.{HasPut};
ghost use Rattle.text_model.specs.Words.{line_of};

use byte_lines::SinkFault;
use no_memory::NoMemory;
use report::LineTaker;

/// What has a line of its own.
pub(crate) trait Lined {
    ghost use Rattle.std.specs.Prelude.{ℕ, List};

    // the words of its line
    ghost words: { Self → List (List ℕ) };

    /// Replaces the buffer by its line. After `NoMemory` it may hold anything.
    fn write_line(&self, text: &mut Vec<u8>, line: u64) -> Result<(), NoMemory>
        ensures { OnOk result (text.new.items ≡ line_of line (words self.now)) };
}

/// Hands over the line of an item.
pub(crate) fn put_one<T: LineTaker, P: Lined>(
    to: &mut T,
    text: &mut Vec<u8>,
    line: u64,
    item: &P,
) -> Result<(), SinkFault>
    ensures { HasPut T.with_line T.IsPart line (T.taken to.old) (P.words item.now ∷ []) (T.taken to.new)
        (T.faults to.old) (T.faults to.new) result }
{
    item.write_line(text, line)?;
    to.take(text.as_slice())
}

/// Hands over the line of each item, in order.
pub(crate) fn put_each<T: LineTaker, P: Lined>(
    to: &mut T,
    text: &mut Vec<u8>,
    line: u64,
    items: &[P],
) -> Result<(), SinkFault>
    ensures { HasPut T.with_line T.IsPart line (T.taken to.old) (map P.words items.now) (T.taken to.new)
        (T.faults to.old) (T.faults to.new) result }
{
    for item in items {
        put_one(to, text, line, item)?;
    }
    Ok(())
}
