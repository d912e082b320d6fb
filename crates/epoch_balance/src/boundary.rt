ghost use Rattle.epoch_balance.specs.BoundaryLaws.{BoundaryBalances, PaymentsAreCovered};

/// A boundary moves each pot by its flows, if accounts are in order, a pending update is balanced
/// and covered, proposals have ids of their own, and the treasury covers what is claimed.
/// (The preservation of value of EPOCH in the formal specification)
pub fn boundary_balances()
    ensures { BoundaryBalances }
{}

/// The treasury covers what is claimed, if frozen proposals have ids of their own and it has not
/// lost since the freeze. (CIP-1694, Enactment)
pub fn payments_are_covered()
    ensures { PaymentsAreCovered }
{}
