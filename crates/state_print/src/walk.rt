ghost use Rattle.std.specs.Prelude.{◌≡◌, None, flat_map};
ghost use Rattle.report.specs.Taking.{HasPut};

use byte_lines::SinkFault;
use report::LineTaker;

/// A book whose entries are found in the order of their keys, each printed as lines.
pub(crate) trait Walked {
    ghost use Rattle.std.specs.Prelude.{◌≡◌, ℕ, List, Option, option_map};
    ghost use Rattle.report.specs.Taking.{HasPut};
    ghost use Rattle.state_print.specs.Walks.{entry_then};

    /// The keys.
    type Key: Copy;
    /// The value at a key.
    type Held: Copy;

    // the entries past a key, or all of them
    ghost past: { Self → Option Self.Key → List (Self.Key × Self.Held) };

    // the words of the lines of an entry
    ghost lines: { Self → Self.Key × Self.Held → List (List (List ℕ)) };

    /// The first entry past a key, or the first of all; none at the end.
    fn following(&self, after: Option<&Self::Key>) -> Option<(Self::Key, Self::Held)>
        ensures { past self.now (option_map (λ k. k.now) after.entry) ≡ entry_then (past self.now) result };

    /// Hands over the lines of an entry.
    fn put_entry<T: LineTaker>(
        &self,
        to: &mut T,
        text: &mut Vec<u8>,
        line: u64,
        entry: &(Self::Key, Self::Held),
    ) -> Result<(), SinkFault>
        ensures { HasPut T.with_line T.IsPart line (T.taken to.old) (lines self.now entry.now) (T.taken to.new)
            (T.faults to.old) (T.faults to.new) result };
}

/// Hands over the lines of each entry, in order.
pub(crate) fn put_walk<T: LineTaker, W: Walked>(
    to: &mut T,
    text: &mut Vec<u8>,
    line: u64,
    book: &W,
) -> Result<(), SinkFault>
    ensures { HasPut T.with_line T.IsPart line (T.taken to.old) (flat_map (W.lines book.now) (W.past book.now None))
        (T.taken to.new) (T.faults to.old) (T.faults to.new) result }
{
    let mut last = None;
    while let Some(entry) = book.following(last.as_ref()) {
        book.put_entry(to, text, line, &entry)?;
        last = Some(entry.0);
    }
    Ok(())
}
