ghost use Rattle.std.specs.Prelude.{◌≡◌, map};
ghost use Rattle.bare_lines.specs.Bare.{bare, bare_part, frozen_bare, frozen_part};
ghost use Rattle.report.specs.Taking.{HasPut};

use crate::bare::Bare;
use crate::frozen::FrozenLine;
use byte_lines::SinkFault;
use report::{LineTaker, Printed, put_each};

/// Hands over the line of each item, in order, without numbers, each made in the buffer.
pub fn put_bare<T: LineTaker, P: Printed>(
    to: &mut T,
    text: &mut Vec<u8>,
    items: &[P],
) -> Result<(), SinkFault>
    ensures { HasPut (bare T.with_line) (bare_part T.IsPart) 0 (T.taken to.old) (map P.words items.now) (T.taken to.new)
        (T.faults to.old) (T.faults to.new) result }
{
    let mut bare = Bare { to };
    put_each(&mut bare, text, 0, items)
}

/// Hands over the line of each item, in order, with `frozen` instead of the number.
/// The second buffer takes the line as it is passed on. What both hold before does not matter.
pub fn put_frozen<T: LineTaker, P: Printed>(
    to: &mut T,
    text: &mut Vec<u8>,
    frozen: &mut Vec<u8>,
    items: &[P],
) -> Result<(), SinkFault>
    ensures { HasPut (frozen_bare T.with_line) (frozen_part T.IsPart) 0 (T.taken to.old) (map P.words items.now)
        (T.taken to.new) (T.faults to.old) (T.faults to.new) result }
{
    let mut frozen = FrozenLine { to, text: frozen };
    put_each(&mut frozen, text, 0, items)
}
