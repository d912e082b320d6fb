ghost use Rattle.std.specs.Prelude.{◌≡◌, ◌≤◌, ◌++◌, IfOk, OnOk, length};
ghost use Rattle.std.specs.Map.{keys_of};
ghost use Rattle.gov_ids.specs.Orders.{outref_cmp};
ghost use Rattle.ledger_model.specs.Transaction.{made_outputs, made_return};
ghost use Rattle.maps.specs.Maps.{value_at};
ghost use Rattle.undo_before.specs.Old.{none_at, old_at, old_outputs};

use book_records::Output;
use gov_ids::OutRef;
use listed::Listed;
use no_memory::NoMemory;
use std::alloc::Global;
use tx_records::Tx;
use utxo_set::UtxoSet;

/// What a transaction with good scripts spends, and none at each output that it makes.
pub fn outputs_of_passed(
    alloc: Global,
    outputs: &UtxoSet,
    tx: &Tx,
) -> Result<Listed<(OutRef, Option<Output>)>, NoMemory>
    requires few { length tx.now.outputs ≤ 65535 }
    ensures { IfOk result (λ olds. olds ≡ old_outputs tx.now.inputs (made_outputs tx.now) outputs.now.outputs) }
{
    let mut olds = taken(alloc, outputs, tx.inputs.as_slice())?;
    add_made(&mut olds, tx)?;
    Ok(Listed::from_vec(olds))
}

/// The collateral of a transaction with failed scripts, and none at its collateral return.
pub fn outputs_of_failed(
    alloc: Global,
    outputs: &UtxoSet,
    tx: &Tx,
) -> Result<Listed<(OutRef, Option<Output>)>, NoMemory>
    requires few { length tx.now.outputs ≤ 65535 }
    ensures { IfOk result (λ olds. olds ≡ old_outputs tx.now.collateral (made_return tx.now) outputs.now.outputs) }
{
    let mut olds = taken(alloc, outputs, tx.collateral.as_slice())?;
    add_return(&mut olds, tx)?;
    Ok(Listed::from_vec(olds))
}

/// Adds none at the collateral return of a transaction, if it has one.
fn add_return(olds: &mut Vec<(OutRef, Option<Output>)>, tx: &Tx) -> Result<(), NoMemory>
    requires few { length tx.now.outputs ≤ 65535 }
    ensures { OnOk result (olds.new.items ≡ olds.old.items ++ none_at (keys_of (made_return tx.now))) }
{
    if let Some(_output) = &tx.collateral_return {
        let index = tx.outputs.len() as u16;
        olds.push((OutRef { tx: tx.id, index }, None))?;
    }
    Ok(())
}

/// Adds none at each output that a transaction makes.
#[tactic(auto, using(crate::proofs::Spending::next_made, crate::proofs::Spending::all_made))]
fn add_made(olds: &mut Vec<(OutRef, Option<Output>)>, tx: &Tx) -> Result<(), NoMemory>
    requires few { length tx.now.outputs ≤ 65535 }
    ensures { OnOk result (olds.new.items ≡ olds.old.items ++ none_at (keys_of (made_outputs tx.now))) }
{
    for index in 0..tx.outputs.len() {
        let at = OutRef {
            tx: tx.id,
            index: index as u16,
        };
        olds.push((at, None))?;
    }
    Ok(())
}

/// The outputs at these references.
fn taken(
    alloc: Global,
    outputs: &UtxoSet,
    refs: &[OutRef],
) -> Result<Vec<(OutRef, Option<Output>)>, NoMemory>
    ensures { IfOk result (λ olds. olds.items ≡ old_at outref_cmp outputs.now.outputs refs.now) }
{
    let mut olds = Vec::new(alloc);
    for at in refs {
        olds.push((*at, output_at(alloc, outputs, at)?))?;
    }
    Ok(olds)
}

/// A copy of the output at a reference, if there is one.
fn output_at(alloc: Global, outputs: &UtxoSet, at: &OutRef) -> Result<Option<Output>, NoMemory>
    ensures { IfOk result (λ old. old ≡ value_at outref_cmp outputs.now.outputs at.now) }
{
    match outputs.get(at) {
        Some(output) => Ok(Some(copied(alloc, output)?)),
        None => Ok(None),
    }
}

/// A copy of an output.
fn copied(alloc: Global, output: &Output) -> Result<Output, NoMemory>
    ensures { IfOk result (λ copy. copy ≡ output.now) }
{
    Ok(Output {
        address: output.address,
        lovelace: output.lovelace,
        assets: output.assets.copied(alloc)?,
    })
}
