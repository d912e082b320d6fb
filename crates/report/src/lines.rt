//! Who takes finished lines, and what is written line by line.
ghost use Rattle.std.specs.Prelude.{◌≡◌, ◌++◌, [], ◌∷◌, map, Err, OnErr, OnOk};
ghost use Rattle.byte_lines.specs.Faults.{CountsFaults};
ghost use Rattle.text_model.specs.Words.{line_of};
ghost use Rattle.report.specs.Taking.{HasPut};

use byte_lines::SinkFault;
use listed::Listed;
use no_memory::NoMemory;

/// Who takes finished lines.
pub trait LineTaker {
    ghost use Rattle.std.specs.Prelude.{ℕ, List};

    ghost Taken: { Type 0 };

    // the report on what it took
    ghost taken: { Self → Taken };

    // the report after one more line
    ghost with_line: { Taken → List ℕ → Taken };

    // the possible reports after a line that it did not take whole
    ghost IsPart: { Taken → List ℕ → Taken → Type 0 };

    // how many writes failed; it never falls
    ghost faults: { Self → ℕ };

    /// Takes a line, with its line feed.
    fn take(&mut self, line: &[u8]) -> Result<(), SinkFault>
        ensures ok { OnOk result (taken self.new ≡ with_line (taken self.old) line.now) }
        ensures err { OnErr result (IsPart (taken self.old) line.now (taken self.new)) }
        ensures counts { CountsFaults (result ≡ Err SinkFault.WriteFault) (faults self.old) (faults self.new) };
}

/// What is printed as one line.
pub trait Printed {
    ghost use Rattle.std.specs.Prelude.{ℕ, List};

    // the words of its line
    ghost words: { Self → List (List ℕ) };

    /// Appends its line.
    fn push_line(&self, out: &mut Vec<u8>, line: u64) -> Result<(), NoMemory>
        ensures { OnOk result (out.new.items ≡ out.old.items ++ line_of line (words self.now)) };
}

/// Hands over the line of an item, through a reused buffer.
pub fn put_one<T: LineTaker, P: Printed>(
    to: &mut T,
    text: &mut Vec<u8>,
    line: u64,
    item: &P,
) -> Result<(), SinkFault>
    ensures { HasPut T.with_line T.IsPart line (T.taken to.old) (P.words item.now ∷ []) (T.taken to.new)
        (T.faults to.old) (T.faults to.new) result }
{
    text.clear();
    item.push_line(text, line)?;
    to.take(text.as_slice())
}

/// Hands over the line of each item, in order.
pub fn put_each<T: LineTaker, P: Printed>(
    to: &mut T,
    text: &mut Vec<u8>,
    line: u64,
    items: &[P],
) -> Result<(), SinkFault>
    ensures { HasPut T.with_line T.IsPart line (T.taken to.old) (map P.words items.now) (T.taken to.new)
        (T.faults to.old) (T.faults to.new) result }
{
    for item in items {
        put_one(to, text, line, item)?;
    }
    Ok(())
}

/// Hands over the line of each item of a list, in order.
pub(crate) fn put_listed<T: LineTaker, P: Printed>(
    to: &mut T,
    text: &mut Vec<u8>,
    line: u64,
    items: &Listed<P>,
) -> Result<(), SinkFault>
    ensures { HasPut T.with_line T.IsPart line (T.taken to.old) (map P.words items.now) (T.taken to.new)
        (T.faults to.old) (T.faults to.new) result }
{
    put_each(to, text, line, items.as_slice())
}
