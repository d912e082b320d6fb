ghost use Rattle.tx_balance.specs.Laws.{AllowedKeepsSupply, AllowedStaysSound, FailedBalances, FailedKeepsAssets, MovesKeepSupply, PassedBalances, PassedMints};

/// An allowed transaction whose scripts did not fail, and that withdraws from no account twice,
/// moves each pot of a sound ledger by its flows and gives on all that it takes in hand.
/// (The preservation of value of the formal specification)
pub fn passed_balances()
    ensures { PassedBalances }
{}

/// An allowed transaction whose scripts failed moves each pot of a sound ledger by its flows and
/// gives on all that it takes in hand. (The preservation of value of the formal specification)
pub fn failed_balances()
    ensures { FailedBalances }
{}

/// An allowed transaction whose scripts did not fail changes what unspent outputs of a sound ledger
/// hold of an asset by what it mints and burns of it.
/// (The preservation of value of the formal specification)
pub fn passed_mints()
    ensures { PassedMints }
{}

/// An allowed transaction whose scripts failed keeps what unspent outputs of a sound ledger hold of
/// each asset. (The preservation of value of the formal specification)
pub fn failed_keeps_assets()
    ensures { FailedKeepsAssets }
{}

/// Flows of which none stays in hand keep the sum of the pots.
pub fn moves_keep_supply()
    ensures { MovesKeepSupply }
{}

/// An allowed transaction leaves a sound ledger sound.
pub fn allowed_stays_sound()
    ensures { AllowedStaysSound }
{}

/// An allowed transaction that withdraws from no account twice keeps the supply of a sound ledger
/// and the sum of its pots. (The preservation of value of the formal specification)
pub fn allowed_keeps_supply()
    ensures { AllowedKeepsSupply }
{}
