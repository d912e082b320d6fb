//! The numbers of a ledger: their ranges, its epoch, and its dormant epochs.
ghost use Rattle.std.specs.Prelude.{◌≡◌, ◌+◌, ◌^◌, nat_le};
ghost use Rattle.std.specs.List.{list_all};
ghost use Rattle.checkpoint_model.specs.Resumable.{has_plain_form, is_timed, is_within_dormant_bound};
ghost use Rattle.ledger_model.specs.Ledger.{Ledger};

use book_records::DrepState;
use gov_actions::Proposal;
use gov_ids::Credential;
use tx_records::Pots;
use tx_records::limits::{NETWORK_LIMIT, SLOT_LIMIT};

/// What an expiry with the dormant epochs may be above the epoch.
const EXPIRY_BOUND: u128 = 4_611_686_022_722_355_200;

/// Where a chain is, and how its slots are counted.
#[derive(Clone, Copy, Debug)]
pub struct Clock {
    /// 0 or 1.
    pub network: u8,
    /// In slots.
    pub epoch_length: u32,
    /// The last slot.
    pub slot: u64,
    pub epoch: u64,
    /// How many epochs ended without a proposal since the last new one.
    pub dormant: u64,
}

/// Whether the numbers of a ledger are in their ranges: network, slots of an epoch, supply in
/// lovelace, slot, dormant epochs, reserves, fees and donations.
pub fn has_plain_form(clock: &Clock, supply: u64, pots: &Pots) -> bool
    ensures { (l : Ledger) → result ≡ has_plain_form (record l {
      network = clock.now.network;
      epoch_length = clock.now.epoch_length;
      supply = supply;
      slot = clock.now.slot;
      dormant = clock.now.dormant;
      reserves = pots.now.reserves;
      fees = pots.now.fees;
      donations = pots.now.donations;
    }) }
{
    let _dormant = clock.dormant;
    let _reserves = pots.reserves;
    let _fees = pots.fees;
    let _donations = pots.donations;
    clock.network < NETWORK_LIMIT && clock.epoch_length > 0 && clock.slot < SLOT_LIMIT
}

/// Whether the epoch is that of the slot.
pub fn is_timed(clock: &Clock) -> bool
    ensures { (l : Ledger) → result ≡ is_timed (record l {
      epoch_length = clock.now.epoch_length;
      slot = clock.now.slot;
      epoch = clock.now.epoch;
    }) }
{
    match clock.slot.checked_div(u64::from(clock.epoch_length)) {
        Some(epoch) => clock.epoch == epoch,
        None => clock.epoch == 0,
    }
}

/// Whether no epoch is dormant while a proposal is live, no more are dormant than epochs ended,
/// and each expiry of a DRep is within its bound.
pub fn is_within_dormant_bound(
    clock: &Clock,
    proposals: &[Proposal],
    dreps: &[(Credential, DrepState)],
) -> bool
    ensures { (l : Ledger) → result ≡ is_within_dormant_bound (record l {
      epoch = clock.now.epoch;
      dormant = clock.now.dormant;
      proposals = proposals.now;
      dreps = dreps.now;
    }) }
{
    (clock.dormant == 0 || proposals.is_empty())
        && clock.dormant <= clock.epoch
        && are_within_bound(clock.epoch, clock.dormant, dreps)
}

/// Whether each expiry, with the dormant epochs, is within its bound.
fn are_within_bound(epoch: u64, dormant: u64, dreps: &[(Credential, DrepState)]) -> bool
    ensures { result ≡ list_all (λ d. nat_le (d.1.expiry + dormant) (2 ^ 62 + 2 ^ 32 + epoch)) dreps.now }
{
    let bound = EXPIRY_BOUND + u128::from(epoch);
    dreps.iter().all(|(_, drep)| u128::from(drep.expiry) + u128::from(dormant) <= bound)
}
