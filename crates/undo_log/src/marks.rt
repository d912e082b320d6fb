ghost use Rattle.std.specs.Prelude.{◌≡◌, None, MatchOption};
ghost use Rattle.undo_log.specs.Back.{IsPlaceOf, mark_at};
ghost use Rattle.undo_log.specs.Logs.{AreInOrder};

/// A place in the log, that of the block of a slot.
#[derive(Clone, Copy)]
pub struct Mark {
    /// The slot of the block.
    pub slot: u64,
    /// How many entries were in the log when the mark was set.
    pub entries: usize,
}

/// The place of the mark of this slot, by binary search.
pub(crate) fn place_of(marks: &[Mark], slot: u64) -> Option<usize>
    requires { AreInOrder marks.now }
    ensures { MatchOption result (mark_at slot marks.now ≡ None) (IsPlaceOf slot marks.now) }
{
    marks.binary_search_by_key(&slot, |mark| mark.slot).ok()
}
