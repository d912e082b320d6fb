ghost use Rattle.std.specs.Prelude.{◌≡◌, ◌<◌, ◌^◌, true, OnOk};
ghost use Rattle.ledger_model.specs.Broken.{balance_checks};
ghost use Rattle.ledger_model.specs.Flows.{flows_of_certs, hand, sink, source, sum_at};
ghost use Rattle.rule_checks.specs.Told.{told_with};
ghost use Rattle.tx_records.specs.TxLimits.{is_within_limits};
ghost use Rattle.utxo_rules.specs.Spent.{IsSpent};

use crate::holdings::Spent;
use crate::lovelace::lovelace_checks;
use crate::told_assets::tell_assets;
use live_ledger::LiveLedger;
use no_memory::NoMemory;
use rule_checks::Told;
use std::alloc::Global;
use tx_records::Tx;

/// Adds NotBalanced if less or more lovelace is taken than given, then AssetNotBalanced for each
/// asset of which that holds, each with both sums. Inputs hold `spent`; certificates give back
/// and pay `moved`. (UTXO of the formal specification, the preservation of value)
pub fn tell_balance(
    alloc: Global,
    s: &LiveLedger,
    tx: &Tx,
    spent: Spent,
    moved: (u128, u128),
    told: &mut Told,
) -> Result<(), NoMemory>
    requires within { is_within_limits tx.now ≡ true }
    requires refunds { moved.0 ≡ sum_at sink hand (flows_of_certs s.now.ledger tx.now) }
    requires deposits { moved.1 ≡ sum_at source hand (flows_of_certs s.now.ledger tx.now) }
    requires small { (moved.0 < 2 ^ 96) × (moved.1 < 2 ^ 96) }
    requires spent { IsSpent s.now.ledger tx.now.inputs spent }
    ensures { OnOk result (told.new ≡ told_with (balance_checks s.now.ledger tx.now) told.old) }
{
    told.add(&lovelace_checks(tx, spent.lovelace, moved))?;
    tell_assets(alloc, s, tx, told)
}
