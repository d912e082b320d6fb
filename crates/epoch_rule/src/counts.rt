ghost use Rattle.std.specs.Prelude.{◌≡◌, ◌<◌, ◌≤◌};
ghost use Rattle.drep_pulser.specs.Facts.{ForSnapshotOf, IsCountIn, IsCountedOf};
ghost use Rattle.drep_pulser.specs.Pulsers.{GoesOnIn, IsPulserOf, total_of_pulser};
ghost use Rattle.gov_ids.specs.Orders.{credential_cmp};
ghost use Rattle.gov_model.specs.Snapshot.{Snapshot};
ghost use Rattle.view_map.specs.View.{frozen_of};

use accounts::AccountBook;
use coin_frac::Steps;
use drep_pulser::{Counted, Counting, Pulser};
use par_count::{Gate, finish_shared};
use std::marker::Brand;
use std::sync::ledger::{Blank, Ledger};
use std::thread::Threads;

/// Visits all entries that are left, with so many workers. It takes no memory.
/// (The DRep pulser of cardano-ledger)
pub(crate) fn finished<R: Threads + Sync, G: Gate + Sync>(
    rt: &R,
    pulser: Pulser,
    book: &AccountBook,
    workers: u32,
    gate: &G,
) -> Counted
    requires some { 1 ≤ workers }
    requires few { workers ≤ 64 }
    requires goes_on { GoesOnIn (frozen_of credential_cmp book.now) pulser }
    ensures { (f : Snapshot) → f.entries ≡ frozen_of credential_cmp book.now → IsPulserOf f pulser →
        IsCountedOf f result }
{
    match pulser {
        Pulser::Counting(counting) => finish_shared(rt, counting, book, workers, gate),
        Pulser::Counted(counted) => counted,
    }
}

/// Visits all entries that are left, in this thread. It takes no memory.
/// (The DRep pulser of cardano-ledger)
pub(crate) fn finished_alone(pulser: Pulser, book: &AccountBook) -> Counted
    requires goes_on { GoesOnIn (frozen_of credential_cmp book.now) pulser }
    ensures { (f : Snapshot) → f.entries ≡ frozen_of credential_cmp book.now → IsPulserOf f pulser →
        IsCountedOf f result }
{
    match pulser {
        Pulser::Counting(counting) => visited::<Brand>(Blank::new(1), counting, book),
        Pulser::Counted(counted) => counted,
    }
}

// Visits all entries that are left of a count that goes on.
fn visited<L: Ledger>(blank: Blank, counting: Counting, book: &AccountBook) -> Counted
    requires name { blank.name ≡ L.name }
    requires parts { blank.parts ≡ L.parts }
    requires some { 0 < L.parts }
    requires counts { IsCountIn (frozen_of credential_cmp book.now) counting }
    ensures { ForSnapshotOf (frozen_of credential_cmp book.now) counting (λ f. IsCountedOf f result) }
{
    let mut steps = Steps::<L>::open(blank);
    counting.finish(book, &mut steps)
}

/// The number of entries to count.
pub(crate) fn entries_of(pulser: &Pulser) -> u64
    ensures { result ≡ total_of_pulser pulser.now }
{
    match pulser {
        Pulser::Counting(counting) => counting.total(),
        Pulser::Counted(counted) => counted.total(),
    }
}
