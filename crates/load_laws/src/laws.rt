ghost use Rattle.load_laws.specs.Laws.{StreamsAreShort, StreamsBeginWell};

/// Every benchmark stream begins with a genesis that breaks no rule.
/// Every one is within the limit of streams. The call does nothing.
pub fn made_streams()
    ensures begins { StreamsBeginWell }
    ensures short { StreamsAreShort }
{}
