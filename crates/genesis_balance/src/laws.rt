ghost use Rattle.genesis_balance.specs.Laws.{GenesisHoldsSupply, GenesisIsSound};

/// The ledger of every genesis is sound.
pub fn genesis_is_sound()
    ensures { GenesisIsSound }
{}

/// The pots of the ledger of a genesis that breaks no rule hold its supply.
pub fn genesis_holds_supply()
    ensures { GenesisHoldsSupply }
{}
