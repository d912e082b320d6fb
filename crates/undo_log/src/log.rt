ghost use Rattle.std.specs.Prelude.{◌≡◌, OnErr, OnOk};
ghost use Rattle.undo_log.specs.Logs.{AreMarksBelow, IsInOrder, empty_log, with_entry, with_mark};

use crate::marks::Mark;
use no_memory::NoMemory;
use std::alloc::Global;
use std::marker::Model;
use undo_back::of_undo_records::Before;

/// The old values of the records of an epoch, in order, and a mark at each of its blocks.
pub struct UndoLog {
    pub(crate) alloc: Global,
    pub(crate) entries: Vec<Before>,
    pub(crate) marks: Vec<Mark>,
}

impl Model for UndoLog {
    ghost use Rattle.undo_log.specs.Logs.{IsInOrder, Log, log_of};

    ghost Value = { Log };

    ghost view = { λ a. log_of a.entries.items a.marks.items };

    ghost invariant = { λ a. IsInOrder (log_of a.entries.items a.marks.items) };
}

impl UndoLog {
    /// The empty log.
    pub fn new(alloc: Global) -> UndoLog
        ensures { result ≡ empty_log }
    {
        UndoLog {
            alloc,
            entries: Vec::new(alloc),
            marks: Vec::new(alloc),
        }
    }

    /// Adds the old values of one more record. After `NoMemory` the log is as it was.
    pub fn push(&mut self, b: Before) -> Result<(), NoMemory>
        ensures ok { OnOk result (self.new ≡ with_entry b self.old) }
        ensures err { OnErr result (self.new ≡ self.old) }
    {
        self.entries.push(b)?;
        Ok(())
    }

    /// Marks the place after all entries by the slot of a block, which is above that of each mark.
    /// After `NoMemory` the log is as it was.
    pub fn mark(&mut self, slot: u64) -> Result<(), NoMemory>
        requires { AreMarksBelow slot self.old.marks }
        ensures ok { OnOk result (self.new ≡ with_mark slot self.old) }
        ensures err { OnErr result (self.new ≡ self.old) }
    {
        let entries = self.entries.len();
        self.marks.push(Mark { slot, entries })?;
        Ok(())
    }

    /// That its marks are in order of slot and of entries. It does nothing.
    pub fn is_in_order(&self)
        ensures { IsInOrder self.now }
    {
        let _marks = &self.marks;
    }

    /// Removes all entries and marks.
    pub fn clear(&mut self)
        ensures { self.new ≡ empty_log }
    {
        self.entries.clear();
        self.marks.clear();
    }
}

// By hand, so that it is proved once: each crate above would prove a derived one part by part.
impl Drop for UndoLog {
    fn drop(self) {
        let UndoLog {
            alloc: _,
            entries: _entries,
            marks: _marks,
        } = self;
    }
}
