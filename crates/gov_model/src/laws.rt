ghost use Rattle.gov_model.specs.Laws.{KeptByChains, KeptOfIsKept, OneListIsRatified};

/// Exactly one list is ratified for each snapshot whose proposals have ids of their own.
/// It is one delaying action, or it has none. (CIP-1694, Ratification)
pub fn one_list_is_ratified()
    ensures { OneListIsRatified }
{}

/// Among proposals with ids of their own, one passes `is_kept` if and only if it has no purpose,
/// or a whole chain leads from it to the last enacted action.
/// (CIP-1694, Governance actions: Content)
pub fn kept_by_chains()
    ensures { KeptByChains }
{}

/// Of proposals with ids of their own, those stay that are neither enacted nor expired,
/// and have no purpose or a whole chain of such.
/// (CIP-1694, Governance actions: Content and Lifecycle)
pub fn what_is_kept()
    ensures { KeptOfIsKept }
{}
