ghost use Rattle.embedded.specs.Laws.{LineLeaves, SessionIsRun};
ghost use Rattle.embedded.specs.Verdicts.{VerdictIsText};

/// Does nothing. Its clauses are laws: the texts of a session, one after another, are the text of
/// the run over its lines; a verdict is the text that the record would have, where that is a reply.
pub fn laws()
    ensures leaves { LineLeaves }
    ensures run { SessionIsRun }
    ensures verdict { VerdictIsText }
{}
