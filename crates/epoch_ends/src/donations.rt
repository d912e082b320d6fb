ghost use Rattle.std.specs.Prelude.{◌≡◌, [], ◌∷◌, IfOk};
ghost use Rattle.ledger_books.specs.Parts.{HoldsSupply, IsStep, frozen_entries, ledger_of_books};
ghost use Rattle.ledger_model.specs.Flows.{donations, flow, treasury};
ghost use Rattle.ledger_model.specs.Moves.{IsMovedBy};
ghost use Rattle.ledger_model.specs.Supply.{pots_of};
ghost use Rattle.run_model.specs.Boundary.{donations_joined};
ghost use Rattle.run_model.specs.World.{on_ledger};

use epoch_balance::donations_balance;
use ledger_books::{Books, with_treasury};
use no_memory::NoMemory;
use std::alloc::Global;

/// Step 7: adds the donations to the treasury. (EPOCH of the formal specification)
pub fn donations_joined(alloc: Global, b: Books) -> Result<Books, NoMemory>
    requires holds { HoldsSupply b }
    ensures world { IfOk result (IsStep (on_ledger donations_joined) b) }
    ensures frozen { IfOk result (λ a. frozen_entries a ≡ frozen_entries b) }
    ensures holds { IfOk result HoldsSupply }
    ensures moved { IfOk result (λ a.
        IsMovedBy (flow donations treasury b.donations ∷ []) (pots_of (ledger_of_books b)) (pots_of (ledger_of_books a))) }
{
    donations_balance();
    let mut b = b;
    let treasury = b.state.get().treasury + b.donations;
    b.state = with_treasury(alloc, b.state, treasury)?;
    b.donations = 0;
    Ok(b)
}
