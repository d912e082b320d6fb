ghost use Rattle.std.specs.Prelude.{◌≡◌, ◌<◌, ◌≤◌, ◌*◌, ◌^◌, true, length, sum_by};
ghost use Rattle.ledger_model.specs.Checks.{answer_of};
ghost use Rattle.ledger_model.specs.Flows.{flows_of_certs, hand, sink, source, sum_at};
ghost use Rattle.ledger_model.specs.Ledger.{Ledger};
ghost use Rattle.ledger_model.specs.UtxoRules.{lovelace_at};
ghost use Rattle.tx_records.specs.TxLimits.{is_within_limits};
ghost use Rattle.utxo_rules.specs.Plain.{lovelace_checks};

use crate::amounts::{lovelace_made, lovelace_proposed, lovelace_withdrawn};
use live_ledger::Draft;
use rule_checks::{Check, first_of};
use tx_records::rules::NOT_BALANCED;
use tx_records::{Rule, Tx};

/// The rule on the balance of lovelace, if the inputs hold so much, and certificates give back
/// and pay so much, whatever the ledger is.
pub fn lovelace_checks(tx: &Tx, spent: u128, moved: (u128, u128)) -> [Check; 1]
    requires within { is_within_limits tx.now ≡ true }
    requires fits { spent ≤ length tx.now.inputs * u64.MAX }
    requires small { (moved.0 < 2 ^ 96) × (moved.1 < 2 ^ 96) }
    ensures { (l : Ledger) → spent ≡ sum_by (lovelace_at l) tx.now.inputs
        → moved.0 ≡ sum_at sink hand (flows_of_certs l tx.now)
        → moved.1 ≡ sum_at source hand (flows_of_certs l tx.now)
        → result ≡ lovelace_checks l tx.now }
{
    let (refunds, deposits) = moved;
    let consumed = spent + lovelace_withdrawn(tx.withdrawals.as_slice()) + refunds;
    let produced = lovelace_made(tx.outputs.as_slice())
        + u128::from(tx.fee)
        + u128::from(tx.donation)
        + deposits
        + lovelace_proposed(tx.proposals.as_slice());
    let uneven = consumed != produced;
    [Check::keeping_two(NOT_BALANCED, consumed, produced, uneven)]
}

/// Whether as much lovelace is taken as is given, if the inputs hold so much.
pub fn balance_of_lovelace(d: &Draft, tx: &Tx, spent: u128) -> Result<(), Rule>
    requires within { is_within_limits tx.now ≡ true }
    requires refunds { d.now.refunds ≡ sum_at sink hand (flows_of_certs d.now.start tx.now) }
    requires deposits { d.now.deposits ≡ sum_at source hand (flows_of_certs d.now.start tx.now) }
    requires sum { spent ≡ sum_by (lovelace_at d.now.start) tx.now.inputs }
    requires fits { spent ≤ length tx.now.inputs * u64.MAX }
    ensures { result ≡ answer_of (lovelace_checks d.now.start tx.now) }
{
    first_of(&lovelace_checks(tx, spent, d.moved()))
}
