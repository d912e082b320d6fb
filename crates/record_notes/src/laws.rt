ghost use Rattle.record_notes.specs.Laws.{NotesAreOfRecords};

/// What is noted beside the records of a stream changes none of them. It does nothing.
pub fn notes_are_of_records()
    ensures { NotesAreOfRecords }
{}
