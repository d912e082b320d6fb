//! Expiry refreshes, and certificates of DReps and cold keys: each changes a draft or is refused.
#![tactic(auto)]

ghost use Rattle.std.specs.Prelude.{◌≡◌, ◌+◌, ◌≤◌, ◌^◌, true, OnOk};
ghost use Rattle.ledger_model.specs.Changes.{refreshed};
ghost use Rattle.tx_records.specs.TxLimits.{is_within_limits};

pub mod cold_key;
mod dormant;
pub mod drep;
mod voters;

use crate::dormant::add_dormant;
use crate::voters::refresh_voters;
use live_ledger::Draft;
use no_memory::NoMemory;
use tx_records::Tx;

/// Adds the dormant epochs to the expiries of DReps if the transaction proposes; then a registered
/// DRep that votes in it gets the expiry of one that acts now. (Own: CIP-1694, Delegated
/// representatives, lets the epochs without a proposal not count)
pub fn refresh(d: &mut Draft, tx: &Tx) -> Result<(), NoMemory>
    requires within { is_within_limits tx.now ≡ true }
    requires few { d.old.changes ≤ 2 ^ 31 }
    ensures ledger { OnOk result (d.new.ledger ≡ refreshed tx.now d.old.ledger) }
    ensures moved { OnOk result ((d.new.refunds ≡ d.old.refunds) × (d.new.deposits ≡ d.old.deposits)) }
    ensures start { d.new.start ≡ d.old.start }
    ensures few { d.new.changes ≤ d.old.changes + 2 ^ 17 }
{
    add_dormant(d, tx)?;
    refresh_voters(d, tx.votes.as_slice())
}
