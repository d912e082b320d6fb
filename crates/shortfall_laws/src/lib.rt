//! The law over what proposals lack: the named silent DReps are the fewest that suffice.
#![tactic(auto)]

ghost use Rattle.shortfall_model.specs.Laws.{LeastIsLeast};

/// What a shortfall says is so: if and only if the need is never reached, no vote helps; else no
/// silent DReps suffice, or the named ones do and no fewer.
/// (Own; the stakes, counts and needs are those of CIP-1694, Ratification)
pub fn least_is_least()
    ensures { LeastIsLeast }
{}
