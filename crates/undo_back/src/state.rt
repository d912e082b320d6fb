ghost use Rattle.std.specs.Prelude.{◌≡◌, IfOk};
ghost use Rattle.ledger_state.specs.Parts.{world_of_parts};
ghost use Rattle.ledger_state.specs.Worlds.{IsHeldBy};
ghost use Rattle.undo_back.specs.Undoable.{IsUndoable};
ghost use Rattle.undo_model.specs.Undone.{undone};

use crate::books::undo_books;
use drep_pulser::Pulser;
use ledger_books::Books;
use ledger_state::LedgerState;
use listed::Boxed;
use no_memory::NoMemory;
use snapshots::Frozen;
use std::alloc::Global;
use undo_records::Before;

/// The state with these old values put back; the count and what is frozen stay.
/// It visits only what the old values name. After `NoMemory` there is no state.
pub fn undo(alloc: Global, s: LedgerState, before: Before) -> Result<LedgerState, NoMemory>
    requires { IsUndoable s before }
    ensures { IfOk result (λ t. t ≡ undone before s) }
{
    let (books, frozen, pulser) = s.into_books();
    match undo_books(books, before) {
        Ok(books) => ledger_of_parts(alloc, books, frozen, pulser),
        Err(error) => {
            drop((frozen, pulser));
            Err(error)
        }
    }
}

/// The state of these books, what is frozen and the count. After `NoMemory` there is no state.
pub fn ledger_of_parts(
    alloc: Global,
    b: Books,
    f: Frozen,
    p: Pulser,
) -> Result<LedgerState, NoMemory>
    requires { IsHeldBy (world_of_parts b f p) f p }
    ensures { IfOk result (λ s. s ≡ world_of_parts b f p) }
{
    match boxed(alloc, b, f) {
        Ok((books, frozen)) => Ok(LedgerState::from_books(alloc, books, frozen, p)),
        Err(error) => {
            drop(p);
            Err(error)
        }
    }
}

// Books and what is frozen, each in memory of its own.
fn boxed(alloc: Global, b: Books, f: Frozen) -> Result<(Box<Books>, Boxed<Frozen>), NoMemory>
    ensures books { IfOk result (λ r. r.0.value ≡ b) }
    ensures frozen { IfOk result (λ r. r.1 ≡ f) }
{
    match Boxed::new(alloc, f) {
        Ok(frozen) => match Box::new(alloc, b) {
            Ok(books) => Ok((books, frozen)),
            Err(refused) => {
                drop((refused, frozen));
                Err(NoMemory)
            }
        },
        Err(_refused) => {
            drop(b);
            Err(NoMemory)
        }
    }
}
