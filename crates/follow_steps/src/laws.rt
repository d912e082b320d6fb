ghost use Rattle.follow_steps.specs.Laws.{EpochIsOfSlot, FollowedSupplyStays, KeptAreNotLater, KeptFrontsAreSound, PlainIsStep, RollbackLeavesKept};

use further_laws::of_run_laws::supply_stays;

/// A record of a replay moves the ledger of a followed stream by one step, with its count, also
/// after rollbacks.
pub fn plain_is_step()
    ensures { PlainIsStep }
{}

/// An accepted rollback leaves the ledger of the records that remain, with the present count.
pub fn rollback_leaves_kept()
    ensures { RollbackLeavesKept }
{}

/// The ledger at each place of the records that remain is sound.
pub fn kept_fronts_are_sound()
    ensures { KeptFrontsAreSound }
{}

/// The epoch of the ledger is that of its slot.
pub fn epoch_is_of_slot()
    ensures { EpochIsOfSlot }
{}

/// No block that remains is later than the ledger, or of a later epoch.
pub fn kept_are_not_later()
    ensures { KeptAreNotLater }
{}

/// After each record of a followed stream all pots hold the supply of the genesis.
/// (The preservation of value of the formal specification)
pub fn followed_supply_stays()
    ensures { FollowedSupplyStays }
{
    supply_stays();
}
