ghost use Rattle.std.specs.Prelude.{◌≡◌, length};
ghost use Rattle.json_tree.specs.View.{view, items_view};
ghost use Rattle.json_fields.specs.Reads.{Reads};
ghost use Rattle.action_read.specs.Params.{units_in};

use coin_frac::Unit;
use json_fields::{FieldFault, Kind, read_items, read_unit};
use json_tree::Value;
use std::alloc::Global;

/// The thresholds of the pools: five fractions from 0 to 1. (CIP-1694, Ratification)
pub struct PoolThresholds;

impl Kind for PoolThresholds {
    type Entry = [Unit; 5];

    ghost use Rattle.action_read.specs.Params.{five_units_in};

    ghost reading = { five_units_in };

    #[tactic(auto, using(crate::proofs::Items::five_items))]
    fn read(alloc: Global, value: &Value<'_>) -> Result<[Unit; 5], FieldFault> {
        let items = read_items(value)?;
        if items.len() != 5 {
            return Err(FieldFault::OutOfRange);
        }
        read_units(alloc, items)
    }
}

/// The thresholds of the DReps: ten fractions from 0 to 1. (CIP-1694, Ratification)
pub struct DrepThresholds;

impl Kind for DrepThresholds {
    type Entry = [Unit; 10];

    ghost use Rattle.action_read.specs.Params.{ten_units_in};

    ghost reading = { ten_units_in };

    #[tactic(auto, using(crate::proofs::Items::ten_items))]
    fn read(alloc: Global, value: &Value<'_>) -> Result<[Unit; 10], FieldFault> {
        let items = read_items(value)?;
        if items.len() != 10 {
            return Err(FieldFault::OutOfRange);
        }
        read_units(alloc, items)
    }
}

fn read_units<const N: usize>(alloc: Global, items: &[Value<'_>]) -> Result<[Unit; N], FieldFault>
    requires { length items.now ≡ N }
    ensures { Reads result (units_in (items_view items.now)) }
{
    let mut units = Vec::new(alloc);
    for item in items {
        let unit = read_unit(item)?;
        units.push(unit).map_err(|_| FieldFault::NoMemory)?;
    }
    <[Unit; N]>::try_from(units).map_err(|_| FieldFault::OutOfRange)
}
