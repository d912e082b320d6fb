ghost use Rattle.std.specs.Prelude.{◌≡◌, ◌+◌, ◌-◌, ◌^◌, ◌<◌};

use std::marker::Model;
use std::sync::ledger::{Blank, Book, Ledger, Share};

/// A step counter that takes no bytes at run time. Contracts see the number of steps.
#[derive(Drop)]
pub struct Steps<L: Ledger> {
    book: Book<L>,
    whole: Share<L>,
}

impl<L: Ledger> Model for Steps<L> {
    ghost use Rattle.std.specs.Prelude.{◌≡◌, ℕ, ◌<◌};

    ghost Value = { ℕ };

    ghost view = { λ a. a.book.total };

    ghost invariant = { λ a. (a.whole.amount ≡ a.book.total) × (0 < a.whole.parts) };
}

impl<L: Ledger> Steps<L> {
    /// No steps yet, on a ledger that belongs to the caller.
    pub fn open(blank: Blank) -> Steps<L>
        requires name { blank.name ≡ L.name }
        requires parts { blank.parts ≡ L.parts }
        requires some { 0 < L.parts }
        ensures { result ≡ 0 }
    {
        let (book, whole) = blank.open::<L>();
        Steps { book, whole }
    }

    /// Counts one step.
    pub fn tick(&mut self)
        requires { self.old < 2 ^ 64 - 1 }
        ensures { self.new ≡ self.old + 1 }
    {
        let Steps { book, whole } = self;
        book.add(whole, 1);
    }
}
