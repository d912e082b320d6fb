ghost use Rattle.std.specs.Prelude.{◌≡◌, ◌<◌};
ghost use Rattle.drep_pulser.specs.Facts.{ForSnapshotOf, IsCountIn, IsCountedOf};
ghost use Rattle.drep_pulser.specs.Pulsers.{GoesOnIn, IsPulserOf};
ghost use Rattle.gov_ids.specs.Orders.{credential_cmp};
ghost use Rattle.gov_model.specs.Snapshot.{Snapshot};
ghost use Rattle.tally.specs.Counted.{AreOf, CanBeCounted};
ghost use Rattle.view_map.specs.View.{frozen_of};

use accounts::AccountBook;
use coin_frac::Steps;
use drep_pulser::{Counted, Counting, Pulser};
use frozen_reads::sound_can_be_counted;
use ledger_state::LedgerState;
use snapshots::Frozen;
use std::marker::Brand;
use std::sync::ledger::{Blank, Ledger};

/// What was frozen when a state's epoch began, and its count with all entries visited.
/// It takes no memory. (The DRep pulser of cardano-ledger)
pub fn close(s: LedgerState) -> (Frozen, Counted)
    ensures snapshot { AreOf s.frozen result.0 result.1 }
    ensures counted { CanBeCounted result.0 result.1 }
{
    sound_can_be_counted();
    let (books, frozen, pulser) = s.into_books();
    let counted = finished(pulser, books.stake.book());
    drop(books);
    (frozen, counted)
}

// The count after all entries that are left.
fn finished(pulser: Pulser, book: &AccountBook) -> Counted
    requires { GoesOnIn (frozen_of credential_cmp book.now) pulser }
    ensures { (f : Snapshot) → f.entries ≡ frozen_of credential_cmp book.now → IsPulserOf f pulser →
        IsCountedOf f result }
{
    match pulser {
        Pulser::Counting(counting) => visited::<Brand>(Blank::new(1), counting, book),
        Pulser::Counted(counted) => counted,
    }
}

// A count that goes on, after all entries that are left.
fn visited<L: Ledger>(blank: Blank, counting: Counting, book: &AccountBook) -> Counted
    requires name { blank.name ≡ L.name }
    requires parts { blank.parts ≡ L.parts }
    requires some { 0 < L.parts }
    requires counts { IsCountIn (frozen_of credential_cmp book.now) counting }
    ensures { ForSnapshotOf (frozen_of credential_cmp book.now) counting (λ f. IsCountedOf f result) }
{
    let mut steps = Steps::<L>::open(blank);
    counting.finish(book, &mut steps)
}
