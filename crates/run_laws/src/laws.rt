ghost use Rattle.run_laws.specs.Boundaries.{BoundariesKeepSound};
ghost use Rattle.run_model.specs.Laws.{AssetsChangeByMint, CountedIsThePulses, EpochsRatifyOneList, FlowsBalance, PulsesDoNotShow, StandsBetweenBoundaries, SupplyStays};
ghost use Rattle.run_model.specs.SoundLaws.{DrepStakesAreWithin, GenesisBeginsSound, PoolStakesAreWithin, RecordsKeepSound};

/// Each record moves each pot by its flows, and nothing is left over.
/// For every ledger that records reach. (The preservation of value of the formal specification)
pub fn flows_balance()
    ensures { FlowsBalance }
{}

/// All pots together hold the supply of the genesis.
/// For every ledger that records reach. (The preservation of value of the formal specification)
pub fn supply_stays()
    ensures { SupplyStays }
{}

/// Only mint changes assets: a record changes the amount of an asset in the unspent outputs by what
/// it mints and burns of it.
/// For every ledger that records reach. (The preservation of value of the formal specification)
pub fn assets_change_by_mint()
    ensures { AssetsChangeByMint }
{}

/// Each epoch ratifies exactly one list of what it froze; a delaying action is alone in its list.
/// For every ledger that records reach. (CIP-1694, Ratification)
pub fn epochs_ratify_one_list()
    ensures { EpochsRatifyOneList }
{}

/// Between boundaries what can be enacted is as frozen, except the treasury, which has not fallen.
/// A pending update is balanced and covered; a frozen proposal is live, and only its votes change.
/// For every ledger that records reach. (CIP-1694, Enactment)
pub fn stands_between_boundaries()
    ensures { StandsBetweenBoundaries }
{}

/// The counted number is the lesser of the number of frozen entries and the sum of the pulses of
/// the epoch's accepted blocks, after every run of records.
pub fn counted_is_the_pulses()
    ensures { CountedIsThePulses }
{}

/// Two runs of records that differ only in positive pulses have the same replies.
/// They leave the same ledger except what was counted.
pub fn pulses_do_not_show()
    ensures { PulsesDoNotShow }
{}

/// A genesis that breaks no rule gives a sound state.
pub fn genesis_begins_sound()
    ensures { GenesisBeginsSound }
{}

/// Each record keeps a sound state sound, so a ledger can have soundness as its invariant.
pub fn records_keep_sound()
    ensures { RecordsKeepSound }
{}

/// A boundary out of an epoch below 2^62 keeps a sound state sound.
pub fn boundaries_keep_sound()
    ensures { BoundariesKeepSound }
{}

/// The stakes of the DReps of a sound snapshot are together at most the supply, in lovelace.
/// Each entry counts for at most one DRep.
pub fn drep_stakes_are_within()
    ensures { DrepStakesAreWithin }
{}

/// The stakes of the pools of a sound snapshot, with the deposits that count for them,
/// are together at most twice the supply, in lovelace.
pub fn pool_stakes_are_within()
    ensures { PoolStakesAreWithin }
{}
