ghost use Rattle.std.specs.Prelude.{◌≡◌, IfOk, OnOk, drop, take};
ghost use Rattle.ledger_books.specs.Parts.{IsStep, frozen_entries};
ghost use Rattle.undo_log.specs.Back.{AllUndoable, AreAllUndoable, back_reply, cut_at, mark_at, undone_all, world_at};

use crate::log::UndoLog;
use crate::marks::place_of;
use follow_records::rules::ROLLBACK_UNKNOWN;
use ledger_books::Books;
use no_memory::NoMemory;
use std::alloc::Global;
use tx_records::{Reply, Rule};
use undo_back::of_ledger_state::LedgerState;
use undo_back::of_undo_records::Before;
use undo_back::{ledger_of_parts, undo_books};

impl UndoLog {
    /// Goes back to the mark of a slot: the entries pushed after it are undone, from the last to
    /// the first, and they and the later marks leave the log. The count and what is frozen stay.
    /// Without such a mark it is refused, and nothing changes. It visits only what is undone.
    /// After `NoMemory` there is no state.
    pub fn back(&mut self, s: LedgerState, slot: u64) -> Result<(LedgerState, Reply), NoMemory>
        requires { AllUndoable self.old.entries s }
        ensures reply { IfOk result (λ r. r.1 ≡ back_reply (mark_at slot self.old.marks) s) }
        ensures state { IfOk result (λ r. r.0 ≡ world_at slot self.old s) }
        ensures log { OnOk result (self.new ≡ cut_at slot self.old) }
    {
        match place_of(self.marks.as_slice(), slot) {
            Some(place) => {
                let kept = self.marks[place].entries;
                self.marks.truncate(place + 1);
                let s = undo_later(self.alloc, s, &mut self.entries, kept)?;
                Ok((s, Reply::Accepted))
            }
            None => {
                let refusal = Rule::keeping(ROLLBACK_UNKNOWN, u128::from(s.slot()));
                Ok((s, Reply::Refused(refusal)))
            }
        }
    }
}

// The state with all entries but the first `n` undone, which leave the list.
fn undo_later(
    alloc: Global,
    s: LedgerState,
    entries: &mut Vec<Before>,
    n: usize,
) -> Result<LedgerState, NoMemory>
    requires { AllUndoable entries.old.items s }
    ensures state { IfOk result (λ t. t ≡ undone_all (drop n entries.old.items) s) }
    ensures left { OnOk result (entries.new.items ≡ take n entries.old.items) }
    ensures first { take n entries.new.items ≡ take n entries.old.items }
{
    let (books, frozen, pulser) = s.into_books();
    match undo_from_last(books, entries, n) {
        Ok(books) => ledger_of_parts(alloc, books, frozen, pulser),
        Err(error) => {
            drop((frozen, pulser));
            Err(error)
        }
    }
}

// The books with all entries but the first `n` undone, which leave the list.
fn undo_from_last(b: Books, entries: &mut Vec<Before>, n: usize) -> Result<Books, NoMemory>
    requires { AreAllUndoable entries.old.items b }
    ensures world { IfOk result (λ r. IsStep (undone_all (drop n entries.old.items)) b r) }
    ensures frozen { IfOk result (λ r. frozen_entries r ≡ frozen_entries b) }
    ensures left { OnOk result (entries.new.items ≡ take n entries.old.items) }
    ensures first { take n entries.new.items ≡ take n entries.old.items }
{
    let mut books = b;
    for _ in n..entries.len() {
        if let Some(entry) = entries.pop() {
            books = undo_books(books, entry)?;
        }
    }
    Ok(books)
}
