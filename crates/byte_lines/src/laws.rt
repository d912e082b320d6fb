//! Laws on lines, for proofs of what reads them.
ghost use Rattle.byte_lines.specs.Laws.{FeedEndsPiece, CutsInTwo, LinesAddUp, EndGivesAll, BreakGivesWhole, GivesFirst, GivesFirstOfAll, NothingBeyond, FreshGivesAll, CallsAddUp, TakesAddUp};
ghost use Rattle.byte_lines.specs.Laws.{FeedEndsOneMore, FeedEndsBegun, FeedGivesLine};
ghost use Rattle.byte_lines.specs.Laws.{GivenIsBetween, StayingGivesNone, GivenAddsUp, BeginsWithNone, CallGivesMore, GivenAll, GivenWhole, GivenFirst};

/// Does nothing. Its clauses are laws: bytes cut into lines, and the lines that a reader gave
/// among the lines of its stream.
pub fn whole_lines()
    ensures pieces { FeedEndsPiece }
    ensures cuts { CutsInTwo }
    ensures adds_up { LinesAddUp }
    ensures all { EndGivesAll }
    ensures whole { BreakGivesWhole }
    ensures first { GivesFirst }
    ensures first_of_all { GivesFirstOfAll }
    ensures nothing_beyond { NothingBeyond }
    ensures fresh { FreshGivesAll }
    ensures calls { CallsAddUp }
    ensures takes { TakesAddUp }
{}

/// Does nothing. Its clauses are laws: the line that a line feed ends.
pub fn line_feeds()
    ensures one_more { FeedEndsOneMore }
    ensures begun { FeedEndsBegun }
    ensures line { FeedGivesLine }
{}

/// Does nothing. Its clauses are laws: the bytes that a source gave, and the lines that a reader
/// gave of them, call by call.
pub fn what_was_given()
    ensures between { GivenIsBetween }
    ensures stays { StayingGivesNone }
    ensures adds_up { GivenAddsUp }
    ensures begins { BeginsWithNone }
    ensures goes_on { CallGivesMore }
    ensures all { GivenAll }
    ensures whole { GivenWhole }
    ensures first { GivenFirst }
{}
