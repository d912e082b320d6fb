// Assets with their quantities.
ghost use Rattle.std.specs.Prelude.{◌≡◌, option_and_then, option_map};
ghost use Rattle.serde_json.specs.Find.{as_i64, as_number};
ghost use Rattle.json_tree.specs.View.{view};
ghost use Rattle.json_fields.specs.Reads.{Reads};
ghost use Rattle.record_read.specs.Entries.{asset_in, assets_by, assets_in};

use assets::{AssetList, Assets, Quantity};
use gov_ids::AssetId;
use json_fields::{
    FieldFault, Kind, read_asset_name, read_distinct_list, read_hash28, read_three, read_u64,
};
use json_tree::{Number, Value};
use std::alloc::Global;
use tx_records::limits::LIST_LIMIT;

/// How much an output holds of an asset.
pub struct Held;

impl Kind for Held {
    type Entry = u64;

    ghost use Rattle.record_read.specs.Entries.{held_in};

    ghost reading = { held_in };

    fn read(_alloc: Global, value: &Value<'_>) -> Result<u64, FieldFault> {
        let held = read_u64(value)?;
        if held.is_quantity() {
            Ok(held)
        } else {
            Err(FieldFault::OutOfRange)
        }
    }
}

/// How much of an asset a transaction mints, or burns where it is below 0.
pub struct Moved;

impl Kind for Moved {
    type Entry = i64;

    ghost use Rattle.record_read.specs.Entries.{moved_in};

    ghost reading = { moved_in };

    fn read(_alloc: Global, value: &Value<'_>) -> Result<i64, FieldFault> {
        if !value.is_number() {
            return Err(FieldFault::WrongKind);
        }
        match as_i64(value) {
            Some(moved) if moved.is_quantity() => Ok(moved),
            _ => Err(FieldFault::OutOfRange),
        }
    }
}

/// The number, where it is an integer of 64 bits with its sign.
fn as_i64(value: &Value<'_>) -> Option<i64>
    ensures { result ≡ option_and_then as_i64 (as_number (view value.now)) }
{
    match value {
        Value::Number(Number::Unsigned(n)) => i64::try_from(*n).ok(),
        Value::Number(Number::Negative(n)) => Some(*n),
        _ => None,
    }
}

/// An asset with its quantity: its policy, its name, the quantity.
#[tactic(auto, unfolding(crate::specs::Entries::asset_in))]
fn read_asset<Q: Kind>(alloc: Global, value: &Value<'_>) -> Result<(AssetId, Q::Entry), FieldFault>
    ensures { Reads result (asset_in Q.reading (view value.now)) }
{
    let (policy, name, quantity) = read_three(value)?;
    let policy = read_hash28(policy)?;
    let name = read_asset_name(name)?;
    let quantity = Q::read(alloc, quantity)?;
    Ok((AssetId { policy, name }, quantity))
}

/// An asset that an output holds.
pub struct HeldAsset;

impl Kind for HeldAsset {
    type Entry = (AssetId, u64);

    ghost use Rattle.record_read.specs.Entries.{asset_in, held_in};

    ghost reading = { asset_in held_in };

    fn read(alloc: Global, value: &Value<'_>) -> Result<(AssetId, u64), FieldFault> {
        read_asset::<Held>(alloc, value)
    }
}

/// An asset that a transaction mints or burns.
pub struct MovedAsset;

impl Kind for MovedAsset {
    type Entry = (AssetId, i64);

    ghost use Rattle.record_read.specs.Entries.{asset_in, moved_in};

    ghost reading = { asset_in moved_in };

    fn read(alloc: Global, value: &Value<'_>) -> Result<(AssetId, i64), FieldFault> {
        read_asset::<Moved>(alloc, value)
    }
}

/// The assets of an output.
fn read_assets(alloc: Global, value: &Value<'_>) -> Result<Assets, FieldFault>
    ensures { Reads result (assets_in (view value.now)) }
{
    match read_distinct_list::<HeldAsset>(alloc, LIST_LIMIT, value) {
        Ok(entries) => Ok(AssetList::from_entries(alloc, entries.as_slice())?),
        Err(error) => Err(error.fault),
    }
}

/// Those of an output that may leave them out.
pub fn optional_assets(alloc: Global, value: Option<&Value<'_>>) -> Result<Assets, FieldFault>
    ensures { Reads result (assets_by (option_map (λ v. view v.now) value.entry)) }
{
    match value {
        Some(value) => read_assets(alloc, value),
        None => Ok(AssetList::none()),
    }
}
