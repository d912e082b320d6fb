ghost use Rattle.draft_changes.specs.Names.{LaidOverChangesNames, LeavingKeepsOtherVotes};

/// Changes laid over a ledger leave what they do not name, as the record says.
pub fn laid_over_changes_names()
    ensures { LaidOverChangesNames }
{}

/// The votes of all others than the DReps that left remain.
pub fn leaving_keeps_other_votes()
    ensures { LeavingKeepsOtherVotes }
{}
