ghost use Rattle.formed_lines.specs.Laws.{LinesGiveFormed};

/// Whatever a line reads as has the form of the formats, in all that a ledger keeps of it.
pub fn lines_give_formed()
    ensures { LinesGiveFormed }
{}
