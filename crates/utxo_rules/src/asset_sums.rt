ghost use Rattle.std.specs.Prelude.{◌≡◌, ℕ, ◌+◌, ◌||◌, true, [], List, IfOk, OnOk, OnErr, flat_map, length, min, not, option_map, sum_by};
ghost use Rattle.std.specs.List.{list_any};
ghost use Rattle.asset_fronts.specs.Fronts.{AreSound, IsSound, fronts, lowest_of};
ghost use Rattle.assets.specs.Balances.{balance_of, first_uneven};
ghost use Rattle.gov_ids.specs.declared.assets.AssetId.{AssetId};
ghost use Rattle.ledger_model.specs.Broken.{asset_checks, assets_consumed, assets_produced};
ghost use Rattle.ledger_model.specs.Checks.{first_among};
ghost use Rattle.ledger_model.specs.UtxoRules.{assets_at};
ghost use Rattle.maps.specs.Words.{is_empty};
ghost use Rattle.rule_checks.specs.Answered.{IsAnswered};
ghost use Rattle.utxo_rules.specs.Plain.{names_assets};

use crate::holdings::Spent;
use asset_fronts::{front, lowest_with};
use assets::AssetBalance;
use gov_ids::{AssetId, OutRef};
use live_ledger::LiveLedger;
use no_memory::NoMemory;
use std::alloc::Global;
use tx_records::rules::ASSET_NOT_BALANCED;
use tx_records::{Rule, Tx, TxFault, TxOutput};

/// Whether a transaction takes or gives an asset, where this is what its inputs hold.
pub fn moves_assets(tx: &Tx, spent: Spent) -> bool
    ensures { result ≡ (spent.has_assets || names_assets tx.now) }
{
    spent.has_assets || names_assets(tx)
}

/// Whether a transaction mints or burns an asset, or makes an output that holds one.
fn names_assets(tx: &Tx) -> bool
    ensures { result ≡ names_assets tx.now }
{
    !tx.mint.is_empty() || have_assets(tx.outputs.as_slice())
}

/// Whether one of these outputs holds an asset.
fn have_assets(outputs: &[TxOutput]) -> bool
    ensures { result ≡ list_any (λ o. not (is_empty o.assets)) outputs.now }
{
    outputs.iter().any(|output| has_assets(output))
}

/// Whether an output holds an asset.
fn has_assets(output: &TxOutput) -> bool
    ensures { result ≡ not (is_empty output.now.assets) }
{
    !output.assets.is_empty()
}

/// The rules on all assets that inputs, mint and outputs name: as much is taken as is given. It
/// takes memory where mint or outputs name one.
pub fn check_assets(alloc: Global, s: &LiveLedger, tx: &Tx) -> Result<(), TxFault>
    ensures rule { IsAnswered (first_among (asset_checks s.now.ledger tx.now)) result }
    ensures memory { result ≡ Err TxFault.NoMemory → names_assets tx.now ≡ true }
{
    match first_uneven(alloc, s, tx)? {
        Some((place, taken, given)) => {
            let rule = Rule::keeping_two(ASSET_NOT_BALANCED, taken, given);
            Err(TxFault::Refused(rule.at(told_place(place))))
        }
        None => Ok(()),
    }
}

/// The first asset that is not taken and given alike: its index, and how much is taken and given.
/// It takes prefixes of the inputs' assets and the mint; it gives the outputs' and burned ones.
fn first_uneven(
    alloc: Global,
    s: &LiveLedger,
    tx: &Tx,
) -> Result<Option<(usize, u128, u128)>, NoMemory>
    ensures first { IfOk result (λ found. found ≡ option_map (λ p. (p.0, p.1.1.0, p.1.1.1))
        (first_uneven (balance_of (assets_consumed s.now.ledger tx.now) (assets_produced tx.now)))) }
    ensures memory { OnErr result (names_assets tx.now ≡ true) }
{
    let refs = tx.inputs.as_slice();
    if !names_assets(tx) {
        return Ok(lowest_taken(s, refs).map(|(_, taken)| (0, taken, 0)));
    }
    let mut balance = taken_by(alloc, s, refs, named_by(tx)?)?;
    give(&mut balance, tx.outputs.as_slice())?;
    balance.mint(&tx.mint)?;
    Ok(balance.first_uneven())
}

/// How many entries mint and outputs list.
fn named_by(tx: &Tx) -> Result<usize, NoMemory>
    ensures { IfOk result (λ n. n ≡ length tx.now.mint + sum_by (λ o. length o.assets) tx.now.outputs) }
{
    let mut named = tx.mint.as_slice().len();
    for output in tx.outputs.as_slice() {
        let listed = output.assets.as_slice().len();
        named = named.checked_add(listed).ok_or(NoMemory)?;
    }
    Ok(named)
}

/// A balance that takes prefixes of the assets of the unspent outputs at these references, one
/// entry more of each than are named, and gives none yet.
pub fn taken_by(
    alloc: Global,
    s: &LiveLedger,
    refs: &[OutRef],
    named: usize,
) -> Result<AssetBalance, NoMemory>
    ensures balance { IfOk result (λ balance. balance ≡
        balance_of (fronts (assets_at s.now.ledger) named refs.now) []) }
    ensures sound { OnOk result (AreSound (assets_at s.now.ledger) refs.now) }
{
    let mut balance = AssetBalance::new(alloc);
    for at in refs {
        balance.take(front(assets_at(s, at), named))?;
    }
    Ok(balance)
}

/// The lowest asset of the unspent outputs at these references, and how much the first of their
/// entries have of it. It takes no memory.
pub fn lowest_taken(s: &LiveLedger, refs: &[OutRef]) -> Option<(AssetId, u128)>
    ensures lowest { result ≡ lowest_of (fronts (assets_at s.now.ledger) 0 refs.now) }
    ensures sound { AreSound (assets_at s.now.ledger) refs.now }
{
    let mut lowest = None;
    for at in refs {
        lowest = lowest_with(lowest, assets_at(s, at));
    }
    lowest
}

/// The assets of the unspent output at a reference; no output counts as no asset.
pub fn assets_at<'a>(s: &'a LiveLedger, at: &OutRef) -> &'a [(AssetId, u64)]
    ensures value { result.now ≡ assets_at s.now.ledger at.now }
    ensures sound { IsSound result.now }
{
    match s.outputs().get(at) {
        Some(output) => output.assets.as_slice(),
        None => &[],
    }
}

/// Gives the assets of these outputs, where none was given before.
fn give(balance: &mut AssetBalance, outputs: &[TxOutput]) -> Result<(), NoMemory>
    ensures { (taken : List (AssetId × ℕ)) → balance.old ≡ balance_of taken [] →
        OnOk result (balance.new ≡ balance_of taken (flat_map (λ o. o.assets) outputs.now)) }
{
    for output in outputs {
        balance.give(output.assets.as_slice())?;
    }
    Ok(())
}

/// An index in 32 bits, as it is reported.
pub fn told_place(place: usize) -> u32
    ensures { result ≡ min place u32.MAX }
{
    place.min(u32::MAX as usize) as u32
}
