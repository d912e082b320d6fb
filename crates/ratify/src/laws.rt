ghost use Rattle.ratify.specs.Wholes.{WholeIsRatified};

/// The pass over all proposals in order of priority is that of `ratify`. (CIP-1694, Ratification)
pub fn whole_is_ratified()
    ensures { WholeIsRatified }
{}
