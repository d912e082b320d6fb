ghost use Rattle.std.specs.Prelude.{◌≡◌, ℕ, ◌++◌, ◌-◌, ◌^◌, List, IfOk, OnOk, flat_map, map, min};
ghost use Rattle.assets.specs.Balances.{balance_of};
ghost use Rattle.assets.specs.Quantities.{all_burned, all_minted};
ghost use Rattle.gov_ids.specs.declared.assets.AssetId.{AssetId};
ghost use Rattle.ledger_model.specs.Broken.{asset_check, asset_checks, assets_consumed, assets_produced};
ghost use Rattle.ledger_model.specs.Checks.{at_place};
ghost use Rattle.ledger_model.specs.UtxoRules.{assets_at};
ghost use Rattle.maps.specs.Words.{with_places};
ghost use Rattle.rule_checks.specs.Told.{told_with};
ghost use Rattle.utxo_rules.specs.Raised.{raised};

use crate::asset_sums::{assets_at, told_place};
use assets::{burned, minted};
use gov_ids::{AssetId, OutRef};
use live_ledger::LiveLedger;
use no_memory::NoMemory;
use rule_checks::{Check, Told};
use std::alloc::Global;
use std::collections::BTreeMap;
use tx_records::rules::ASSET_NOT_BALANCED;
use tx_records::{Tx, TxOutput};

/// Adds AssetNotBalanced for each asset of which more or less is given than taken, in order.
pub fn tell_assets(alloc: Global, s: &LiveLedger, tx: &Tx, told: &mut Told) -> Result<(), NoMemory>
    ensures { OnOk result (told.new ≡ told_with (asset_checks s.now.ledger tx.now) told.old) }
{
    let mut sums = BTreeMap::new(alloc);
    take_inputs(&mut sums, s, tx.inputs.as_slice())?;
    give_outputs(&mut sums, tx.outputs.as_slice())?;
    mint(&mut sums, tx.mint.as_slice())?;
    tell_uneven(&sums, told)
}

/// Adds a rule for each uneven asset of these sums, at its place.
fn tell_uneven(sums: &BTreeMap<AssetId, (u128, u128)>, told: &mut Told) -> Result<(), NoMemory>
    ensures { OnOk result (told.new ≡ told_with
        (map (λ p. at_place (min p.0 u32.MAX) (asset_check p.1)) (with_places sums.now.entries)) told.old) }
{
    let mut place = 0;
    for (_, (taken, given)) in sums {
        let check = Check::keeping_two(ASSET_NOT_BALANCED, *taken, *given, taken != given);
        told.add_at(told_place(place) as usize, &[check])?;
        place += 1;
    }
    Ok(())
}

/// Takes the assets of the unspent outputs at these references.
fn take_inputs(
    sums: &mut BTreeMap<AssetId, (u128, u128)>,
    s: &LiveLedger,
    refs: &[OutRef],
) -> Result<(), NoMemory>
    ensures { (taken given : List (AssetId × ℕ)) → sums.old.entries ≡ balance_of taken given
        → OnOk result (sums.new.entries ≡ balance_of (taken ++ flat_map (assets_at s.now.ledger) refs.now) given) }
{
    for at in refs {
        take(sums, assets_at(s, at))?;
    }
    Ok(())
}

/// Gives the assets of these outputs.
fn give_outputs(
    sums: &mut BTreeMap<AssetId, (u128, u128)>,
    outputs: &[TxOutput],
) -> Result<(), NoMemory>
    ensures { (taken given : List (AssetId × ℕ)) → sums.old.entries ≡ balance_of taken given
        → OnOk result (sums.new.entries ≡ balance_of taken (given ++ flat_map (λ o. o.assets) outputs.now)) }
{
    for output in outputs {
        give(sums, output.assets.as_slice())?;
    }
    Ok(())
}

/// Takes what these entries have of each asset.
fn take(
    sums: &mut BTreeMap<AssetId, (u128, u128)>,
    entries: &[(AssetId, u64)],
) -> Result<(), NoMemory>
    ensures { (taken given : List (AssetId × ℕ)) → sums.old.entries ≡ balance_of taken given
        → OnOk result (sums.new.entries ≡ balance_of (taken ++ entries.now) given) }
{
    for (asset, quantity) in entries {
        raise(sums, asset, *quantity, 0)?;
    }
    Ok(())
}

/// Gives what these entries have of each asset.
fn give(
    sums: &mut BTreeMap<AssetId, (u128, u128)>,
    entries: &[(AssetId, u64)],
) -> Result<(), NoMemory>
    ensures { (taken given : List (AssetId × ℕ)) → sums.old.entries ≡ balance_of taken given
        → OnOk result (sums.new.entries ≡ balance_of taken (given ++ entries.now)) }
{
    for (asset, quantity) in entries {
        raise(sums, asset, 0, *quantity)?;
    }
    Ok(())
}

/// Takes what is minted of each asset, and gives what is burned of it.
fn mint(
    sums: &mut BTreeMap<AssetId, (u128, u128)>,
    entries: &[(AssetId, i64)],
) -> Result<(), NoMemory>
    ensures { (taken given : List (AssetId × ℕ)) → sums.old.entries ≡ balance_of taken given
        → OnOk result (sums.new.entries ≡ balance_of (taken ++ all_minted entries.now) (given ++ all_burned entries.now)) }
{
    for (asset, quantity) in entries {
        raise(sums, asset, minted(*quantity), burned(*quantity))?;
    }
    Ok(())
}

/// Takes and gives some of an asset.
fn raise(
    sums: &mut BTreeMap<AssetId, (u128, u128)>,
    asset: &AssetId,
    taken: u64,
    given: u64,
) -> Result<(), NoMemory>
    ensures { OnOk result (sums.new.entries ≡ raised asset.now taken given sums.old.entries) }
{
    let before = sums.get(asset).copied().unwrap_or((0, 0));
    let all_taken = before.0.checked_add(u128::from(taken)).ok_or(NoMemory)?;
    let all_given = before.1.checked_add(u128::from(given)).ok_or(NoMemory)?;
    sums.insert(*asset, (all_taken, all_given))?;
    Ok(())
}
