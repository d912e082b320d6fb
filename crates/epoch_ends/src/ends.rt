ghost use Rattle.std.specs.Prelude.{◌≡◌, ◌+◌, ◌^◌, ◌<◌, []};
ghost use Rattle.epoch_ends.specs.Steps.{next_epoch};
ghost use Rattle.ledger_books.specs.Parts.{HoldsSupply, IsStep, frozen_entries, ledger_of_books};
ghost use Rattle.ledger_model.specs.Moves.{IsMovedBy};
ghost use Rattle.ledger_model.specs.Supply.{pots_of};
ghost use Rattle.run_model.specs.Boundary.{dormancy_noted, members_only};
ghost use Rattle.run_model.specs.World.{on_ledger};

use ledger_books::Books;

/// Step 8: only members of the committee keep a hot key or a resignation. It takes no memory.
/// (EPOCH of the formal specification)
pub fn members_only(b: Books) -> Books
    ensures world { IsStep (on_ledger members_only) b result }
    ensures frozen { frozen_entries result ≡ frozen_entries b }
    ensures holds { HoldsSupply b → HoldsSupply result }
    ensures moved { IsMovedBy [] (pots_of (ledger_of_books b)) (pots_of (ledger_of_books result)) }
{
    let mut b = b;
    b.hot.keep_members(b.state.get().committee.as_ref());
    b
}

/// Step 9: an epoch that leaves no proposal is dormant. It takes no memory.
/// A proposal past its last epoch counts while it is in the list.
/// (EPOCH of the formal specification; that such a proposal counts: Own)
pub fn dormancy_noted(b: Books) -> Books
    requires fits { b.dreps.dormant + 1 < 2 ^ 64 }
    ensures world { IsStep (on_ledger dormancy_noted) b result }
    ensures frozen { frozen_entries result ≡ frozen_entries b }
    ensures holds { HoldsSupply b → HoldsSupply result }
    ensures moved { IsMovedBy [] (pots_of (ledger_of_books b)) (pots_of (ledger_of_books result)) }
{
    let mut b = b;
    if b.proposals.len() == 0 {
        b.dreps.grow_dormant();
    }
    b
}

/// Begins the next epoch: its number grows by 1. It takes no memory.
/// (NEWEPOCH of the formal specification)
pub fn next_epoch(b: Books) -> Books
    requires fits { b.epoch + 1 < 2 ^ 64 }
    ensures world { IsStep (on_ledger next_epoch) b result }
    ensures frozen { frozen_entries result ≡ frozen_entries b }
    ensures holds { HoldsSupply b → HoldsSupply result }
    ensures moved { IsMovedBy [] (pots_of (ledger_of_books b)) (pots_of (ledger_of_books result)) }
{
    let mut b = b;
    b.epoch += 1;
    b
}
