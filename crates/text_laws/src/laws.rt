ghost use Rattle.text_laws.specs.Laws.{CountedIsShown, PotsMove, PulsesDoNotShowInText, RefusalsChangeNothing};

/// Two streams that differ only in positive pulses have the same text,
/// except for the number of counted entries in the lines of blocks.
pub fn pulses_do_not_show_in_text()
    ensures { PulsesDoNotShowInText }
{}

/// The counted number in the line of a block is what the pulses of the epoch's accepted blocks
/// count, with that block's.
pub fn counted_is_shown()
    ensures { CountedIsShown }
{}

/// A line of a refusal is of a record that changed nothing, or of a line that gave no record.
pub fn refusals_change_nothing()
    ensures { RefusalsChangeNothing }
{}

/// Each reading of a run moves each pot by its flows, by none if it is refused or gave no record.
/// All pots together hold the supply of the genesis, in lovelace.
/// (The preservation of value of the formal specification)
pub fn pots_move()
    ensures { PotsMove }
{}
