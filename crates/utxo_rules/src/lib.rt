//! The rules on what a transaction spends and makes, and the rule on its balance.
#![tactic(auto)]

ghost use Rattle.std.specs.Prelude.{◌≡◌, true, false, IfOk};
ghost use Rattle.ledger_model.specs.Checks.{answer_of, first_among};
ghost use Rattle.ledger_model.specs.UtxoRules.{returned_assets, utxo_checks};
ghost use Rattle.ledger_model.specs.Broken.{balance_checks};
ghost use Rattle.ledger_model.specs.Flows.{flows_of_certs, hand, sink, source, sum_at};
ghost use Rattle.maps.specs.Words.{is_empty};
ghost use Rattle.rule_checks.specs.Answered.{IsAnswered};
ghost use Rattle.tx_records.specs.TxLimits.{is_within_limits};
ghost use Rattle.utxo_rules.specs.Plain.{names_assets, plain_checks};
ghost use Rattle.utxo_rules.specs.Spent.{IsSpent, without_value};

mod amounts;
mod asset_sums;
mod collateral;
mod holdings;
mod inputs;
mod limits;
mod lovelace;
mod outputs;
mod told_assets;
mod told_balance;
mod told_rules;

use crate::amounts::spent_by;
use crate::asset_sums::{check_assets, moves_assets};
use crate::collateral::{
    check_collateral, check_collateral_assets, check_collateral_list, check_collateral_sum,
};
use crate::inputs::{check_id, check_inputs};
use crate::limits::{check_fee, check_treasury};
use crate::lovelace::balance_of_lovelace;
use crate::outputs::check_outputs;
pub use holdings::Spent;
use live_ledger::{Draft, LiveLedger};
use rule_checks::as_fault;
use std::alloc::Global;
pub use told_balance::tell_balance;
pub use told_rules::tell_spent;
use tx_records::{Rule, Tx, TxFault};

/// The first broken rule on id, inputs, size, time, fee, outputs, collateral with its assets, and
/// treasury value, if there is one. It takes memory where the collateral return has assets.
/// (UTXO and UTXOW of the formal specification)
pub fn check(alloc: Global, s: &LiveLedger, tx: &Tx) -> Result<(), TxFault>
    requires { is_within_limits tx.now ≡ true }
    ensures rule { IsAnswered (first_among (utxo_checks s.now.ledger tx.now)) result }
    ensures memory { result ≡ Err TxFault.NoMemory → is_empty (returned_assets tx.now) ≡ false }
{
    check_spent(alloc, s, tx)?;
    Ok(())
}

/// What the inputs hold, for `balance_of_spent`, or the first broken rule of `check`.
/// Each input is looked up once.
pub fn check_spent(alloc: Global, s: &LiveLedger, tx: &Tx) -> Result<Spent, TxFault>
    requires { is_within_limits tx.now ≡ true }
    ensures rule { IsAnswered (first_among (utxo_checks s.now.ledger tx.now)) (without_value result) }
    ensures spent { IfOk result (IsSpent s.now.ledger tx.now.inputs) }
    ensures memory { result ≡ Err TxFault.NoMemory → is_empty (returned_assets tx.now) ≡ false }
{
    match check_plain(s, tx) {
        Ok(spent) => {
            check_collateral_assets(alloc, s, tx)?;
            Ok(spent)
        }
        Err(rule) => Err(TxFault::Refused(rule)),
    }
}

/// What the inputs hold, by all rules of `check` except the one on the collateral's assets.
fn check_plain(s: &LiveLedger, tx: &Tx) -> Result<Spent, Rule>
    requires { is_within_limits tx.now ≡ true }
    ensures rule { without_value result ≡ answer_of (plain_checks s.now.ledger tx.now) }
    ensures spent { IfOk result (IsSpent s.now.ledger tx.now.inputs) }
{
    check_id(s, tx)?;
    let spent = check_inputs(s, tx)?;
    check_fee(s, tx)?;
    check_outputs(s, tx)?;
    check_collateral_list(s, tx)?;
    check_collateral(s, tx)?;
    check_collateral_sum(s, tx)?;
    check_treasury(s, tx)?;
    Ok(spent)
}

/// Whether a transaction takes what it gives: in lovelace, with the draft's refunds and deposits,
/// then of each asset; else NotBalanced or AssetNotBalanced with both sums. Failed scripts: exempt.
/// Assets take memory. (UTXO of the formal specification, the preservation of value)
pub fn balance(alloc: Global, d: &Draft, tx: &Tx) -> Result<(), TxFault>
    requires within { is_within_limits tx.now ≡ true }
    requires refunds { d.now.refunds ≡ sum_at sink hand (flows_of_certs d.now.start tx.now) }
    requires deposits { d.now.deposits ≡ sum_at source hand (flows_of_certs d.now.start tx.now) }
    ensures rule { IsAnswered (first_among (balance_checks d.now.start tx.now)) result }
    ensures memory { result ≡ Err TxFault.NoMemory → names_assets tx.now ≡ true }
{
    let spent = spent_by(d.start(), tx.inputs.as_slice());
    balance_of_spent(alloc, d, tx, spent)
}

/// Whether a transaction takes what it gives, by what `check_spent` returned of its inputs.
/// It looks up inputs only where there are assets.
/// (UTXO of the formal specification, the preservation of value)
pub fn balance_of_spent(alloc: Global, d: &Draft, tx: &Tx, spent: Spent) -> Result<(), TxFault>
    requires within { is_within_limits tx.now ≡ true }
    requires refunds { d.now.refunds ≡ sum_at sink hand (flows_of_certs d.now.start tx.now) }
    requires deposits { d.now.deposits ≡ sum_at source hand (flows_of_certs d.now.start tx.now) }
    requires spent { IsSpent d.now.start tx.now.inputs spent }
    ensures rule { IsAnswered (first_among (balance_checks d.now.start tx.now)) result }
    ensures memory { result ≡ Err TxFault.NoMemory → names_assets tx.now ≡ true }
{
    as_fault(balance_of_lovelace(d, tx, spent.lovelace))?;
    if moves_assets(tx, spent) {
        check_assets(alloc, d.start(), tx)
    } else {
        Ok(())
    }
}
