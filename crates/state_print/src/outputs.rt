//! The lines of the unspent outputs with their assets, and of the totals of each asset.
ghost use Rattle.std.specs.Prelude.{flat_map, map};
ghost use Rattle.book_records.specs.Outputs.{asset_totals};
ghost use Rattle.report.specs.Taking.{HasPut};
ghost use Rattle.text_model.specs.StateLines.{asset_total_words, output_lines};

use crate::items::{ItemLines, put_items};
use crate::walk::{Walked, put_walk};
use book_records::Output;
use byte_lines::SinkFault;
use gov_ids::{AssetId, OutRef};
use report::{LineTaker, put_one};
use state_lines::{AssetTotal, StateLine};
use utxo_set::UtxoSet;

/// The assets of an output.
#[derive(Drop)]
struct HeldAssets;

impl ItemLines for HeldAssets {
    ghost use Rattle.std.specs.Prelude.{[], ◌∷◌};
    ghost use Rattle.text_model.specs.StateLines.{asset_words};

    type Item = (AssetId, u64);

    ghost lines = { λ _ e. asset_words e ∷ [] };

    fn put_item<T: LineTaker>(
        &self,
        to: &mut T,
        text: &mut Vec<u8>,
        line: u64,
        item: &(AssetId, u64),
    ) -> Result<(), SinkFault> {
        put_one(to, text, line, &StateLine::Asset(item))
    }
}

/// Hands over the lines of an output and its assets.
fn put_output<T: LineTaker>(
    to: &mut T,
    text: &mut Vec<u8>,
    line: u64,
    reference: &OutRef,
    output: &Output,
) -> Result<(), SinkFault>
    ensures { HasPut T.with_line T.IsPart line (T.taken to.old) (output_lines (reference.now, output.now))
        (T.taken to.new) (T.faults to.old) (T.faults to.new) result }
{
    put_one(to, text, line, &StateLine::Output(reference, output))?;
    put_items(to, text, line, &HeldAssets, output.assets.as_slice())
}

/// Hands over the lines of the unspent outputs, each with its assets.
pub(crate) fn put_outputs<T: LineTaker>(
    to: &mut T,
    text: &mut Vec<u8>,
    line: u64,
    outputs: &UtxoSet,
) -> Result<(), SinkFault>
    ensures { HasPut T.with_line T.IsPart line (T.taken to.old) (flat_map output_lines outputs.now.outputs)
        (T.taken to.new) (T.faults to.old) (T.faults to.new) result }
{
    // each reference occurs once, in order
    let _total = outputs.total();
    let mut last = None;
    while let Some((reference, output)) = outputs.next(last.as_ref()) {
        put_output(to, text, line, &reference, output)?;
        last = Some(reference);
    }
    Ok(())
}

/// What unspent outputs hold of each asset.
#[derive(Drop)]
struct Totals<'a> {
    outputs: &'a UtxoSet,
}

impl<'a> Walked for Totals<'a> {
    ghost use Rattle.std.specs.Prelude.{[], ◌∷◌};
    ghost use Rattle.book_records.specs.Outputs.{asset_totals};
    ghost use Rattle.gov_ids.specs.Orders.{asset_cmp};
    ghost use Rattle.text_model.specs.StateLines.{asset_total_words};
    ghost use Rattle.view_map.specs.Walk.{entries_past};

    type Key = AssetId;

    type Held = u128;

    ghost past = { λ p after. entries_past asset_cmp after (asset_totals p.outputs.now.outputs) };

    ghost lines = { λ _ e. asset_total_words e ∷ [] };

    fn following(&self, after: Option<&AssetId>) -> Option<(AssetId, u128)> {
        self.outputs.next_asset(after)
    }

    fn put_entry<T: LineTaker>(
        &self,
        to: &mut T,
        text: &mut Vec<u8>,
        line: u64,
        entry: &(AssetId, u128),
    ) -> Result<(), SinkFault> {
        let total = AssetTotal {
            asset: entry.0,
            total: entry.1,
        };
        put_one(to, text, line, &total)
    }
}

/// Hands over the line of each asset that the outputs hold, with its total, in order. (Own)
/// Each replaces what the buffer held. After an error a prefix of the lines was taken.
pub fn put_assets<T: LineTaker>(
    to: &mut T,
    text: &mut Vec<u8>,
    line: u64,
    outputs: &UtxoSet,
) -> Result<(), SinkFault>
    ensures { HasPut T.with_line T.IsPart line (T.taken to.old) (map asset_total_words (asset_totals outputs.now.outputs))
        (T.taken to.new) (T.faults to.old) (T.faults to.new) result }
{
    put_walk(to, text, line, &Totals { outputs })
}
