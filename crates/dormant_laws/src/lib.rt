//! The law on dormant epochs, apart from other laws over runs: the state need not wait for them.
#![tactic(auto)]

ghost use Rattle.run_model.specs.Laws.{DormantBound};

/// In every ledger that records reach, dormant epochs are no more than epochs, none while a
/// proposal is live, and with them no DRep's expiry is past its bound.
/// (CIP-1694, Registered DReps; the bound is own)
pub fn dormant_bound()
    ensures { DormantBound }
{}
