ghost use Rattle.std.specs.Prelude.{◌≡◌, true, option_map, IfOk};
ghost use Rattle.std.specs.List.{list_all};
ghost use Rattle.assets.specs.Quantities.{is_held};
ghost use Rattle.shown_lists.specs.Only.{IsOnly};
ghost use Rattle.book_rows.specs.Assets.{are_assets};

use assets::{Assets, Quantity};
use book_records::Output;
use gov_ids::{Address, AssetId, OutRef};
use listed::Listed;
use no_memory::NoMemory;
use resume_checks::is_map;
use row_items::RowKind;
use std::alloc::Global;

/// Outputs, each shown without its assets, and then by those.
pub struct OutputRows;

/// Whether an output may hold each of these quantities.
fn are_held(entries: &[(AssetId, u64)]) -> bool
    ensures { result ≡ list_all (λ e. is_held e.1) entries.now }
{
    entries.iter().all(|(_, quantity)| quantity.is_quantity())
}

/// Whether an output may hold these assets: they are in order, each once, and at least 1 of each.
fn are_assets(entries: &[(AssetId, u64)]) -> bool
    ensures { result ≡ are_assets entries.now }
{
    is_map(entries) && are_held(entries)
}

/// The assets of these entries, if an output may hold them.
fn assets_of(alloc: Global, entries: &[(AssetId, u64)]) -> Result<Option<Assets>, NoMemory>
    ensures { IfOk result (IsOnly (λ held. are_assets held ≡ true) (λ held. held) entries.now) }
{
    let held = are_assets(entries);
    if !held {
        return Ok(None);
    }
    let assets = Assets::from_entries(alloc, entries)?;
    Ok(Some(assets))
}

impl RowKind for OutputRows {
    type Row = ((OutRef, (Address, u64)), Listed<(AssetId, u64)>);

    type Item = (OutRef, Output);

    ghost use Rattle.checkpoint_lists.specs.Shown.{output_row};
    ghost use Rattle.book_rows.specs.Assets.{are_assets};

    ghost shows = { output_row };

    ghost form = { λ o. are_assets o.1.assets };

    fn item_of(
        alloc: Global,
        shown: &((OutRef, (Address, u64)), Listed<(AssetId, u64)>),
    ) -> Result<Option<(OutRef, Output)>, NoMemory> {
        let Some(assets) = assets_of(alloc, shown.1.as_slice())? else {
            return Ok(None);
        };
        let output = Output {
            address: shown.0.1.0,
            lovelace: shown.0.1.1,
            assets,
        };
        Ok(Some((shown.0.0, output)))
    }
}
