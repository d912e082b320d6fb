ghost use Rattle.std.specs.Prelude.{flat_map};
ghost use Rattle.report.specs.Taking.{HasPut};

use byte_lines::SinkFault;
use report::LineTaker;

/// What prints items of one kind, each as lines.
pub trait ItemLines {
    ghost use Rattle.std.specs.Prelude.{ℕ, List};
    ghost use Rattle.report.specs.Taking.{HasPut};

    /// The items.
    type Item;

    // what its calls need of it
    ghost can: { Self → Type 0 };

    // the words of the lines of an item
    ghost lines: { Self → Self.Item → List (List (List ℕ)) };

    /// Hands over the lines of an item; each replaces what the buffer held.
    fn put_item<T: LineTaker>(
        &self,
        to: &mut T,
        text: &mut Vec<u8>,
        line: u64,
        item: &Self::Item,
    ) -> Result<(), SinkFault>
        requires { can self.now }
        ensures { HasPut T.with_line T.IsPart line (T.taken to.old) (lines self.now item.now) (T.taken to.new)
            (T.faults to.old) (T.faults to.new) result };
}

/// Hands over the lines of each item, in the order of the list.
/// Each replaces what the buffer held. After an error a prefix of the lines was taken.
pub fn put_items<T: LineTaker, P: ItemLines>(
    to: &mut T,
    text: &mut Vec<u8>,
    line: u64,
    printer: &P,
    items: &[P::Item],
) -> Result<(), SinkFault>
    requires { P.can printer.now }
    ensures { HasPut T.with_line T.IsPart line (T.taken to.old) (flat_map (P.lines printer.now) items.now)
        (T.taken to.new) (T.faults to.old) (T.faults to.new) result }
{
    for item in items {
        printer.put_item(to, text, line, item)?;
    }
    Ok(())
}
