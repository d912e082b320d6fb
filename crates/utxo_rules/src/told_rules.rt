ghost use Rattle.std.specs.Prelude.{◌≡◌, ◌≤◌, ◌^◌, true, IfOk, OnOk, length};
ghost use Rattle.ledger_model.specs.Checks.{per_place};
ghost use Rattle.ledger_model.specs.UtxoRules.{collateral_checks, input_checks, utxo_checks};
ghost use Rattle.rule_checks.specs.Told.{told_with};
ghost use Rattle.tx_records.specs.TxLimits.{is_within_limits};
ghost use Rattle.utxo_rules.specs.Repeated.{is_at};
ghost use Rattle.utxo_rules.specs.Spent.{IsSpent};

use crate::amounts::spent_by;
use crate::collateral::{
    Collateral, collateral_assets_checks, collateral_list_checks, collateral_sum_checks,
};
use crate::holdings::Spent;
use crate::inputs::{id_checks, input_checks, is_missing};
use crate::limits::{fee_checks, tell_treasury};
use crate::outputs::tell_outputs;
use gov_ids::OutRef;
use live_ledger::LiveLedger;
use no_memory::NoMemory;
use rule_checks::{ItemRules, Told};
use std::alloc::Global;
use std::collections::BTreeSet;
use tx_records::Tx;

/// Adds every broken rule on id, inputs, size, time, fee, outputs, collateral with its assets, and
/// treasury value, in order. Returns what the inputs hold, for `tell_balance`.
/// (UTXO and UTXOW of the formal specification)
pub fn tell_spent(
    alloc: Global,
    s: &LiveLedger,
    tx: &Tx,
    told: &mut Told,
) -> Result<Spent, NoMemory>
    requires { is_within_limits tx.now ≡ true }
    ensures rules { OnOk result (told.new ≡ told_with (utxo_checks s.now.ledger tx.now) told.old) }
    ensures spent { IfOk result (IsSpent s.now.ledger tx.now.inputs) }
{
    told.add(&id_checks(s, tx))?;
    tell_inputs(alloc, s, tx, told)?;
    told.add(&fee_checks(s, tx))?;
    tell_outputs(s, tx, told)?;
    told.add(&collateral_list_checks(s, tx))?;
    tell_collateral(alloc, s, tx, told)?;
    told.add(&collateral_sum_checks(s, tx))?;
    tell_treasury(s, tx, told)?;
    told.add(&collateral_assets_checks(alloc, s, tx)?)?;
    Ok(spent_by(s, tx.inputs.as_slice()))
}

/// Adds every broken rule on an input. Each that repeats an earlier one breaks one.
fn tell_inputs(alloc: Global, s: &LiveLedger, tx: &Tx, told: &mut Told) -> Result<(), NoMemory>
    requires { is_within_limits tx.now ≡ true }
    ensures { OnOk result (told.new ≡ told_with
        (per_place (input_checks s.now.ledger tx.now) tx.now.inputs) told.old) }
{
    let mut seen = BTreeSet::new(alloc);
    for (place, at) in tx.inputs.as_slice().iter().enumerate() {
        let repeated = !seen.insert(*at)?;
        told.add_at(place, &input_checks(is_missing(s, at), repeated))?;
    }
    Ok(())
}

/// Adds every broken rule on a collateral input, of which each repeated one breaks one.
fn tell_collateral(alloc: Global, s: &LiveLedger, tx: &Tx, told: &mut Told) -> Result<(), NoMemory>
    requires { is_within_limits tx.now ≡ true }
    ensures { OnOk result (told.new ≡ told_with
        (per_place (collateral_checks s.now.ledger tx.now) tx.now.collateral) told.old) }
{
    let mut seen = BTreeSet::new(alloc);
    for (place, at) in tx.collateral.as_slice().iter().enumerate() {
        let repeated = place_where(!seen.insert(*at)?, place);
        Collateral { s, tx, repeated }.tell(place, at, told)?;
    }
    Ok(())
}

/// The place, if this holds there.
fn place_where(holds: bool, place: usize) -> Option<usize>
    ensures { is_at result place ≡ holds }
{
    holds.then_some(place)
}
