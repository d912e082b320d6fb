ghost use Rattle.std.specs.Prelude.{◌≡◌, ◌<◌, IfOk};
ghost use Rattle.drep_pulser.specs.Facts.{ForSnapshotOf, IsCountIn, IsCountedOf};
ghost use Rattle.drep_pulser.specs.Pulsers.{GoesOnIn, IsPulserOf};
ghost use Rattle.gov_ids.specs.Orders.{credential_cmp};
ghost use Rattle.gov_model.specs.Snapshot.{Snapshot};
ghost use Rattle.snapshots.specs.Frozen.{frozen_copy_of};
ghost use Rattle.tally.specs.Counted.{CanBeCounted};
ghost use Rattle.view_map.specs.View.{frozen_of};

use accounts::AccountBook;
use coin_frac::Steps;
use drep_pulser::{Counted, Counting, Pulser};
use frozen_reads::sound_can_be_counted;
use ledger_state::LedgerState;
use no_memory::NoMemory;
use std::alloc::Global;
use std::marker::Brand;
use std::sync::ledger::{Blank, Ledger};

// The count of a state's epoch, ended on a copy.
pub(crate) fn counted_copy(alloc: Global, s: &LedgerState) -> Result<Counted, NoMemory>
    ensures counted { IfOk result (IsCountedOf s.now.frozen) }
    ensures fits { IfOk result (CanBeCounted (frozen_copy_of s.now.frozen)) }
{
    sound_can_be_counted();
    let pulser = s.pulser().copied(alloc)?;
    Ok(finished(pulser, s.live().stake().book()))
}

// The count after all entries that are left.
fn finished(pulser: Pulser, book: &AccountBook) -> Counted
    requires goes_on { GoesOnIn (frozen_of credential_cmp book.now) pulser }
    ensures { (f : Snapshot) → f.entries ≡ frozen_of credential_cmp book.now → IsPulserOf f pulser →
        IsCountedOf f result }
{
    match pulser {
        Pulser::Counting(counting) => visited::<Brand>(Blank::new(1), counting, book),
        Pulser::Counted(counted) => counted,
    }
}

// A count that goes on, after all entries that are left.
fn visited<L: Ledger>(blank: Blank, counting: Counting, book: &AccountBook) -> Counted
    requires name { blank.name ≡ L.name }
    requires parts { blank.parts ≡ L.parts }
    requires some { 0 < L.parts }
    requires counts { IsCountIn (frozen_of credential_cmp book.now) counting }
    ensures { ForSnapshotOf (frozen_of credential_cmp book.now) counting (λ f. IsCountedOf f result) }
{
    let mut steps = Steps::<L>::open(blank);
    counting.finish(book, &mut steps)
}
