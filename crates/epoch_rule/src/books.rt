ghost use Rattle.std.specs.Prelude.{◌≡◌, ◌<◌, ◌^◌, ℕ, IfOk};
ghost use Rattle.epoch_rule.specs.Lists.{lists_of};
ghost use Rattle.epoch_rule.specs.Sounds.{AreDecidedBooks, AreSoundBooks};
ghost use Rattle.ledger_state.specs.of_epoch_start.Begun.{begun_of};
ghost use Rattle.gov_model.specs.Snapshot.{Snapshot};
ghost use Rattle.ledger_books.specs.Parts.{world_of_books};
ghost use Rattle.run_model.specs.Boundary.{world_after_boundary};
ghost use Rattle.tally.specs.Cells.{AreCells};

use coin_frac::NoMemory;
use drep_pulser::Counted;
use epoch_balance::payments_are_covered;
use epoch_steps::of_frozen_reads::sound_can_be_counted;
use epoch_steps::{Decided, after_pass, before_pass, decide};
use gov_actions::Tally;
use gov_ids::Drep;
use ledger_books::Books;
use listed::Listed;
use snapshots::Frozen;
use std::alloc::Global;
use tally::TallyCell;
use tx_records::{Paid, Removed, Retired};

// What a boundary reports of the epoch that ends, and of where amounts went.
#[derive(Drop)]
pub(crate) struct Lists {
    pub(crate) stakes: Listed<(Drep, u64)>,
    pub(crate) tallies: Listed<Tally>,
    pub(crate) paid: Listed<Paid>,
    pub(crate) removed: Listed<Removed>,
    pub(crate) retired: Listed<Retired>,
}

// All steps of a boundary except the freeze, with their reports, by the frozen proposals' counts.
pub(crate) fn crossed(
    alloc: Global,
    b: Books,
    f: &Frozen,
    c: &Counted,
    cells: &[TallyCell],
) -> Result<(Books, Lists), NoMemory>
    requires sound { (counted : ℕ) × (s : Snapshot) × AreSoundBooks b counted s f.now c.now }
    requires cells { AreCells f.now c.now cells.now }
    requires early { b.epoch < 2 ^ 62 }
    ensures begun { IfOk result (λ r. (counted : ℕ) (s : Snapshot) → AreSoundBooks b counted s f.now c.now →
        begun_of r.0 ≡ world_after_boundary (world_of_books b counted s)) }
    ensures lists { IfOk result (λ r. (counted : ℕ) (s : Snapshot) → AreSoundBooks b counted s f.now c.now →
        r.1 ≡ lists_of (world_of_books b counted s)) }
{
    sound_can_be_counted();
    match decide(alloc, f, c, cells) {
        Ok(decided) => applied(alloc, b, decided),
        Err(fault) => {
            drop(b);
            Err(fault)
        }
    }
}

// All steps of a boundary except the freeze, with their reports, by what was decided.
fn applied(alloc: Global, b: Books, d: Decided) -> Result<(Books, Lists), NoMemory>
    requires sound { (counted : ℕ) × (s : Snapshot) × AreDecidedBooks b counted s d }
    requires early { b.epoch < 2 ^ 62 }
    ensures begun { IfOk result (λ r. (counted : ℕ) (s : Snapshot) → AreDecidedBooks b counted s d →
        begun_of r.0 ≡ world_after_boundary (world_of_books b counted s)) }
    ensures lists { IfOk result (λ r. (counted : ℕ) (s : Snapshot) → AreDecidedBooks b counted s d →
        r.1 ≡ lists_of (world_of_books b counted s)) }
{
    payments_are_covered();
    let (turned, retired) = match before_pass(alloc, b) {
        Ok(turned) => turned,
        Err(fault) => {
            drop(d);
            return Err(fault);
        }
    };
    let Decided {
        ratified,
        expired,
        state,
        tallies,
        stakes,
        targets,
    } = d;
    let (ended, paid, removed) = after_pass(
        alloc,
        turned,
        ratified.as_slice(),
        expired.as_slice(),
        state,
        targets.as_slice(),
    )?;
    let lists = Lists {
        stakes,
        tallies,
        paid: Listed::from_vec(paid),
        removed: Listed::from_vec(removed),
        retired: Listed::from_vec(retired),
    };
    Ok((ended, lists))
}
