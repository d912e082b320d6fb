ghost use Rattle.std.specs.Prelude.{◌≡◌};
ghost use Rattle.draft_changes.specs.of_ledger_books.Parts.{frozen_entries, ledger_of_books};
ghost use Rattle.live_ledger.specs.Kept.{IsLiveLedger};
ghost use Rattle.live_ledger.specs.Standing.{on_ledger};

use super::LiveLedger;
use draft_changes::of_ledger_books::Books;
use draft_changes::of_snapshots::Snapshots;
use listed::Listed;
use std::alloc::Global;
use std::mem;
use tx_records::Rewards;

impl LiveLedger {
    /// The ledger's parts, with these snapshots and this pending update. It takes no memory.
    pub fn into_books(self, snapshots: Snapshots, pending: Option<Rewards>) -> Books
        ensures ledger { ledger_of_books result ≡ self.ledger }
        ensures frozen { frozen_entries result ≡ self.frozen }
        ensures snapshots { result.snapshots ≡ snapshots }
        ensures pending { result.pending ≡ pending }
        ensures kept { IsLiveLedger self.ledger }
    {
        Books {
            snapshots,
            pending,
            ..Box::into_inner(self.books)
        }
    }

    /// The ledger of these parts, and the parts outside it. It takes no memory.
    pub fn of_books(alloc: Global, b: Box<Books>) -> (LiveLedger, Snapshots, Option<Rewards>)
        requires { IsLiveLedger (ledger_of_books b.value) }
        ensures ledger { result.0.ledger ≡ ledger_of_books b.value }
        ensures frozen { result.0.frozen ≡ frozen_entries b.value }
        ensures snapshots { result.1 ≡ b.value.snapshots }
        ensures pending { result.2 ≡ b.value.pending }
    {
        let mut books = b;
        let snapshots = mem::replace(&mut books.snapshots, no_snapshots(alloc));
        let pending = mem::replace(&mut books.pending, None);
        (LiveLedger { alloc, books }, snapshots, pending)
    }

    /// The ledger at this slot. (TICK of the formal specification)
    pub fn at_slot(self, slot: u64) -> LiveLedger
        ensures { result ≡ on_ledger (λ l. record l { slot = slot }) self }
    {
        let mut books = self.books;
        books.slot = slot;
        LiveLedger {
            alloc: self.alloc,
            books,
        }
    }
}

/// The stakes of no pool, and no fees.
pub(crate) fn no_snapshots(alloc: Global) -> Snapshots {
    Snapshots {
        mark: Listed::new(alloc),
        set: Listed::new(alloc),
        go: Listed::new(alloc),
        fees: 0,
    }
}
