ghost use Rattle.std.specs.Prelude.{◌≡◌, ◌+◌, ◌≤◌, ◌<◌, ◌^◌, OnOk, if◌then◌else◌};
ghost use Rattle.ledger_model.specs.Changes.{dormant_added};
ghost use Rattle.maps.specs.Words.{is_empty};

use live_ledger::Draft;
use no_memory::NoMemory;
use tx_records::Tx;

/// The dormant epochs are added where the transaction proposes.
pub fn add_dormant(d: &mut Draft, tx: &Tx) -> Result<(), NoMemory>
    requires few { d.old.changes < 2 ^ 32 }
    ensures ledger { OnOk result (d.new.ledger ≡
        (if is_empty tx.now.proposals then d.old.ledger else dormant_added d.old.ledger)) }
    ensures moved { (d.new.refunds ≡ d.old.refunds) × (d.new.deposits ≡ d.old.deposits) }
    ensures start { d.new.start ≡ d.old.start }
    ensures few { d.new.changes ≤ d.old.changes + 1 }
{
    if !tx.proposals.is_empty() {
        d.refresh()?;
    }
    Ok(())
}
