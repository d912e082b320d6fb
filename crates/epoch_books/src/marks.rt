ghost use Rattle.std.specs.Prelude.{◌≡◌, [], IfOk};
ghost use Rattle.ledger_books.specs.Parts.{HoldsSupply, IsStep, frozen_entries, ledger_of_books};
ghost use Rattle.ledger_model.specs.Moves.{IsMovedBy};
ghost use Rattle.ledger_model.specs.Supply.{pots_of};
ghost use Rattle.run_model.specs.Boundary.{marked};

use coin_frac::NoMemory;
use freeze::pool_stakes;
use ledger_books::Books;
use std::alloc::Global;

/// Rotates the snapshots and notes the fee pot. (SNAP of the formal specification)
/// Mark takes the stakes that the registered pools have now.
pub fn snapshots_turned(alloc: Global, mut b: Books) -> Result<Books, NoMemory>
    ensures world { IfOk result (λ r. IsStep marked b r) }
    ensures frozen { IfOk result (λ r. frozen_entries r ≡ frozen_entries b) }
    ensures holds { IfOk result (λ r. HoldsSupply b → HoldsSupply r) }
    ensures moved { IfOk result (λ r. IsMovedBy [] (pots_of (ledger_of_books b)) (pots_of (ledger_of_books r))) }
{
    match pool_stakes(alloc, &b.stake, &b.pools) {
        Ok(mark) => {
            b.snapshots.turn(mark, b.fees);
            Ok(b)
        }
        Err(error) => {
            drop(b);
            Err(error)
        }
    }
}
