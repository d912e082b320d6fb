ghost use Rattle.action_lengths.specs.Laws.{LinesHoldTheirActions};

/// A line is longer than the text of each action that it proposes, by 80 bytes at least.
pub fn lines_hold_their_actions()
    ensures { LinesHoldTheirActions }
{}
