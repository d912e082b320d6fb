ghost use Rattle.epoch_balance.specs.StepLaws.{CutsBalance, DonationsBalance, DormancyBalances, EnactmentBalances, FreezeBalances, MembersBalance, PaymentsBalance, PoolsBalance, RemovalsBalance, RewardsBalance, SnapshotsBalance, TermsBalance};

/// The pending reward update moves each pot by its flows, if accounts are in order and it is
/// balanced and covered. (The preservation of value of EPOCH in the formal specification)
pub fn rewards_balance()
    ensures { RewardsBalance }
{}

/// The turn of the snapshots moves no pot.
/// (The preservation of value of EPOCH in the formal specification)
pub fn snapshots_balance()
    ensures { SnapshotsBalance }
{}

/// Pool terms that take effect move no pot.
/// (The preservation of value of EPOCH in the formal specification)
pub fn terms_balance()
    ensures { TermsBalance }
{}

/// The reaping of pools moves each pot by its flows, if accounts are in order: no refund is lost.
/// (The preservation of value of EPOCH in the formal specification)
pub fn pools_balance()
    ensures { PoolsBalance }
{}

/// Enactment moves no pot: it leaves the live treasury as it is.
/// (The preservation of value of EPOCH in the formal specification)
pub fn enactment_balances()
    ensures { EnactmentBalances }
{}

/// Enacted withdrawals move each pot by their flows, if accounts are in order and the treasury
/// covers what is claimed; what nobody claims remains there.
/// (The preservation of value of EPOCH in the formal specification)
pub fn payments_balance()
    ensures { PaymentsBalance }
{}

/// The removal of proposals moves each pot by its flows, if accounts are in order and proposals
/// have ids of their own: no refund is lost.
/// (The preservation of value of EPOCH in the formal specification)
pub fn removals_balance()
    ensures { RemovalsBalance }
{}

/// The removal by any lists of enacted and of expired proposals moves each pot by its flows, if
/// accounts are in order and proposals have ids of their own.
/// (The preservation of value of EPOCH in the formal specification)
pub fn cuts_balance()
    ensures { CutsBalance }
{}

/// The donations go to the treasury.
/// (The preservation of value of EPOCH in the formal specification)
pub fn donations_balance()
    ensures { DonationsBalance }
{}

/// The cut of the hot entries moves no pot.
/// (The preservation of value of EPOCH in the formal specification)
pub fn members_balance()
    ensures { MembersBalance }
{}

/// The dormant count moves no pot. (The preservation of value of EPOCH in the formal specification)
pub fn dormancy_balances()
    ensures { DormancyBalances }
{}

/// The beginning of the next epoch moves no pot.
/// (The preservation of value of EPOCH in the formal specification)
pub fn freeze_balances()
    ensures { FreezeBalances }
{}
