ghost use Rattle.std.specs.Prelude.{◌≡◌};

use coin_frac::NoMemory;
use tx_records::GenesisRule;

/// Why a genesis gave no ledger.
#[derive(Clone, Copy, Debug, PartialEq, Eq)]
pub enum GenesisFault {
    /// The first genesis rule that it breaks.
    Broken(GenesisRule),
    /// Out of memory.
    NoMemory,
}

impl From<NoMemory> for GenesisFault {
    ghost use Rattle.live_ledger.specs.declared.fault.GenesisFault.TheVariants as faults;

    ghost from_gives = { λ _ e. e ≡ faults.NoMemory };

    fn from(_error: NoMemory) -> GenesisFault {
        GenesisFault::NoMemory
    }
}
