ghost use Rattle.std.specs.Prelude.{◌≡◌, ℕ, [], IfOk};
ghost use Rattle.gov_model.specs.Enacted.{enacted_after};
ghost use Rattle.gov_model.specs.Snapshot.{Snapshot};
ghost use Rattle.ledger_books.specs.Parts.{HoldsSupply, frozen_entries, ledger_of_books, world_of_books};
ghost use Rattle.ledger_model.specs.Moves.{IsMovedBy};
ghost use Rattle.ledger_model.specs.Supply.{pots_of};
ghost use Rattle.run_model.specs.Boundary.{enacted, enacted_proposals};

use gov_actions::EnactState;
use ledger_books::Books;
use listed::Boxed;
use no_memory::NoMemory;
use std::alloc::Global;

/// Step 4: enacts what was ratified. (ENACT and EPOCH of the formal specification)
/// The treasury stays the live one; only step 5 pays from it.
pub fn enacted(alloc: Global, b: Books, state: EnactState) -> Result<Books, NoMemory>
    ensures world { IfOk result (λ a. (counted : ℕ) (f : Snapshot) →
        state ≡ enacted_after f (enacted_proposals (world_of_books b counted f)) →
        world_of_books a counted f ≡ enacted (world_of_books b counted f)) }
    ensures frozen { IfOk result (λ a. frozen_entries a ≡ frozen_entries b) }
    ensures holds { IfOk result (λ a. HoldsSupply b → HoldsSupply a) }
    ensures moved { IfOk result (λ a. IsMovedBy [] (pots_of (ledger_of_books b)) (pots_of (ledger_of_books a))) }
{
    let mut b = b;
    let treasury = b.state.get().treasury;
    match Boxed::new(alloc, EnactState { treasury, ..state }) {
        Ok(state) => {
            b.state = state;
            Ok(b)
        }
        Err(error) => {
            drop(b);
            Err(error.into())
        }
    }
}
