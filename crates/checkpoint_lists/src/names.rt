//! With what the lines of the pots and of what is pending begin.

use crate::pots::{PendingOrNone, PotsLines};
use named_kinds::NamedLines;

impl NamedLines for PendingOrNone {
    ghost use Rattle.std.specs.Prelude.{codes};

    ghost name = { codes "pending " };

    fn named() {}
}

impl NamedLines for PotsLines {
    ghost use Rattle.std.specs.Prelude.{codes};

    ghost name = { codes "pots " };

    fn named() {}
}
