//! What gives lines, and who hands them over.
ghost use Rattle.report.specs.Taking.{HasPut};

use byte_lines::SinkFault;
use report::{LineTaker, Printed, put_one};

/// What gives lines one after another.
pub(crate) trait LineSource {
    ghost use Rattle.std.specs.Prelude.{◌≡◌, ℕ, List, option_map};
    ghost use Rattle.checkpoint_print.specs.Sources.{given_then};

    /// What a line is printed from.
    type Line: Printed + Drop;

    // the words of the lines that are left
    ghost left: { Self → List (List (List ℕ)) };

    /// The next line; none at the end.
    fn next_line(&mut self) -> Option<Self::Line>
        ensures { left self.old ≡ given_then (option_map Self.Line.words result) (left self.new) };
}

/// Hands over the lines of a source, in order, as lines of the number 0.
pub(crate) fn put_left<T: LineTaker, S: LineSource + Drop>(
    to: &mut T,
    text: &mut Vec<u8>,
    mut source: S,
) -> Result<(), SinkFault>
    ensures { HasPut T.with_line T.IsPart 0 (T.taken to.old) (S.left source) (T.taken to.new)
        (T.faults to.old) (T.faults to.new) result }
{
    while let Some(line) = source.next_line() {
        put_one(to, text, 0, &line)?;
    }
    Ok(())
}
