ghost use Rattle.formed_laws.specs.Counts.{EntriesAreFew};
ghost use Rattle.formed_laws.specs.Laws.{GenesisHasForm, ReachedHasForm, RecordsKeepForm};

/// A genesis that has the form of the formats and breaks no rule gives a ledger that has it.
pub fn genesis_has_form()
    ensures { GenesisHasForm }
{}

/// Each record that has the form of the formats leaves a sound ledger in it.
/// No live hard fork may be to a version before the Conway era.
pub fn records_keep_form()
    ensures { RecordsKeepForm }
{}

/// A ledger that is reached by records of the form of the formats has it, with what is frozen.
pub fn reached_has_form()
    ensures { ReachedHasForm }
{}

/// Each frozen entry is a registered account or holds lovelace, so there are at most as many as the
/// genesis and certificates registered, and as many more as the supply has lovelace.
pub fn entries_are_few()
    ensures { EntriesAreFew }
{}
