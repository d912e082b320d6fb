ghost use Rattle.undo_model.specs.Laws.{EachRecordHasOldValues, UndoneIsBefore};

/// An undo gives the ledger before, with the present count, if the old values are those of the
/// ledger before and name all that differs between the two. They may name more.
pub fn undone_is_before()
    ensures { UndoneIsBefore }
{}

/// Each record that stays in the epoch can be undone: some old values name all that it changes.
pub fn each_record_has_old_values()
    ensures { EachRecordHasOldValues }
{}
