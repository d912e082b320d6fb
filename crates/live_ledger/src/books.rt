ghost use Rattle.std.specs.Prelude.{◌≡◌, ◌+◌, ◌<◌, ◌≤◌, ◌^◌, IfOk, OnOk, None, length, sum_by};
ghost use Rattle.std.specs.List.{AllByRecursion};
ghost use Rattle.std.specs.Map.{keys_of};
ghost use Rattle.gov_ids.specs.Orders.{outref_cmp};
ghost use Rattle.ledger_model.specs.UtxoRules.{returned};
ghost use Rattle.ledger_model.specs.Transaction.{kept_output, made_outputs, made_return};
ghost use Rattle.live_ledger.specs.Books.{IsMade, KeepsAccounts};
ghost use Rattle.maps.specs.Maps.{IsMap, value_at, with_values, without_keys};
ghost use Rattle.book_records.specs.Outputs.{lovelace_in};
ghost use Rattle.stake_book.specs.Stakes.{HasRoom, accounts_of, balances_in};
ghost use Rattle.coin_frac.specs.declared.TheConstants.{SUPPLY_LIMIT};

use coin_frac::NoMemory;
use gov_ids::OutRef;
use stake_book::StakeBook;
use std::alloc::Global;
use tx_records::{Tx, TxOutput};
use utxo_set::Output;

/// Replaces a transaction's inputs by its outputs, and notes its id as used.
/// After `NoMemory` the caller drops the book.
pub fn move_outputs(alloc: Global, stake: &mut StakeBook, tx: &Tx) -> Result<(), NoMemory>
    requires in_order { IsMap outref_cmp stake.old.outputs.outputs }
    requires few { length tx.now.outputs ≤ 65535 }
    requires absent { AllByRecursion
        (λ r. value_at outref_cmp (without_keys outref_cmp tx.now.inputs stake.old.outputs.outputs) r ≡ None)
        (keys_of (made_outputs tx.now)) }
    requires room { lovelace_in (without_keys outref_cmp tx.now.inputs stake.old.outputs.outputs)
        + balances_in (accounts_of stake.old) + sum_by (λ o. o.lovelace) tx.now.outputs ≤ SUPPLY_LIMIT }
    ensures { OnOk result (IsMade stake.old stake.new tx.now.inputs (made_outputs tx.now) tx.now.id) }
{
    take_outputs(stake, tx.inputs.as_slice())?;
    put_outputs(alloc, stake, tx)?;
    stake.mark_used(tx.id)?;
    Ok(())
}

/// Replaces a transaction's collateral by its collateral return, if any, and notes its id as used.
/// It gives what the collateral held, in lovelace. After `NoMemory` the caller drops the book.
pub fn move_collateral(alloc: Global, stake: &mut StakeBook, tx: &Tx) -> Result<u64, NoMemory>
    requires in_order { IsMap outref_cmp stake.old.outputs.outputs }
    requires few { length tx.now.outputs ≤ 65535 }
    requires absent { AllByRecursion
        (λ r. value_at outref_cmp (without_keys outref_cmp tx.now.collateral stake.old.outputs.outputs) r ≡ None)
        (keys_of (made_return tx.now)) }
    requires room { lovelace_in (without_keys outref_cmp tx.now.collateral stake.old.outputs.outputs)
        + balances_in (accounts_of stake.old) + returned tx.now ≤ SUPPLY_LIMIT }
    requires held { lovelace_in (without_keys outref_cmp tx.now.collateral stake.old.outputs.outputs)
        ≤ lovelace_in stake.old.outputs.outputs }
    ensures made { OnOk result (IsMade stake.old stake.new tx.now.collateral (made_return tx.now) tx.now.id) }
    ensures left { IfOk result (λ collateral.
        lovelace_in (without_keys outref_cmp tx.now.collateral stake.old.outputs.outputs) + collateral
        ≡ lovelace_in stake.old.outputs.outputs) }
{
    let held = stake.outputs().total();
    take_outputs(stake, tx.collateral.as_slice())?;
    let collateral = held - stake.outputs().total();
    put_return(alloc, stake, tx)?;
    stake.mark_used(tx.id)?;
    Ok(collateral)
}

/// Takes the outputs at these references.
fn take_outputs(stake: &mut StakeBook, taken: &[OutRef]) -> Result<(), NoMemory>
    requires { IsMap outref_cmp stake.old.outputs.outputs }
    ensures outputs { OnOk result (stake.new.outputs ≡ record stake.old.outputs {
      outputs = without_keys outref_cmp taken.now stake.old.outputs.outputs;
    }) }
    ensures rest { OnOk result (KeepsAccounts stake.old stake.new) }
{
    for at in taken {
        stake.spend(at)?;
    }
    Ok(())
}

/// Puts the outputs of a transaction, as id#0, id#1 and so on; the book has none of them.
fn put_outputs(alloc: Global, stake: &mut StakeBook, tx: &Tx) -> Result<(), NoMemory>
    requires few { length tx.now.outputs ≤ 65535 }
    requires absent { AllByRecursion
        (λ r. value_at outref_cmp stake.old.outputs.outputs r ≡ None) (keys_of (made_outputs tx.now)) }
    requires room { HasRoom (sum_by (λ o. o.lovelace) tx.now.outputs) stake.old }
    ensures outputs { OnOk result (stake.new.outputs ≡ record stake.old.outputs {
      outputs = with_values outref_cmp (made_outputs tx.now) stake.old.outputs.outputs;
    }) }
    ensures rest { OnOk result (KeepsAccounts stake.old stake.new) }
{
    let mut index = 0u16;
    for output in tx.outputs.as_slice() {
        let output = kept(alloc, output)?;
        stake.add(OutRef { tx: tx.id, index }, output)?;
        index += 1;
    }
    Ok(())
}

/// Puts the collateral return of a transaction, if any, at the place after its last output.
fn put_return(alloc: Global, stake: &mut StakeBook, tx: &Tx) -> Result<(), NoMemory>
    requires few { length tx.now.outputs ≤ 65535 }
    requires absent { AllByRecursion
        (λ r. value_at outref_cmp stake.old.outputs.outputs r ≡ None) (keys_of (made_return tx.now)) }
    requires room { HasRoom (returned tx.now) stake.old }
    ensures outputs { OnOk result (stake.new.outputs ≡ record stake.old.outputs {
      outputs = with_values outref_cmp (made_return tx.now) stake.old.outputs.outputs;
    }) }
    ensures rest { OnOk result (KeepsAccounts stake.old stake.new) }
{
    if let Some(output) = &tx.collateral_return {
        let output = kept(alloc, output)?;
        let index = tx.outputs.len() as u16;
        stake.add(OutRef { tx: tx.id, index }, output)?;
    }
    Ok(())
}

/// What the book stores of an output of a transaction.
fn kept(alloc: Global, output: &TxOutput) -> Result<Output, NoMemory>
    ensures { IfOk result (λ o. o ≡ kept_output output.now) }
{
    Ok(Output {
        address: output.address,
        lovelace: output.lovelace,
        assets: output.assets.copied(alloc)?,
    })
}
