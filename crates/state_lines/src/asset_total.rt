//! The line of an asset's total.
ghost use Rattle.std.specs.Prelude.{◌≡◌, ◌++◌, OnOk};
ghost use Rattle.text_model.specs.Words.{line_of};
ghost use Rattle.state_lines.specs.AssetTotals.{words_of_total};

use coin_frac::NoMemory;
use gov_ids::AssetId;
use report::{Printed, Word, push_line};

/// An asset, with what all unspent outputs hold of it. (Own)
#[derive(Clone, Copy)]
pub struct AssetTotal {
    /// The asset.
    pub asset: AssetId,
    /// How much of it.
    pub total: u128,
}

/// Appends the line of an asset's total.
fn push_total_line(out: &mut Vec<u8>, line: u64, total: &AssetTotal) -> Result<(), NoMemory>
    ensures { OnOk result (out.new.items ≡ out.old.items ++ line_of line (words_of_total total.now)) }
{
    push_line(
        out,
        line,
        &[
            Word::Text("asset-total"),
            Word::Script(&total.asset.policy),
            Word::AssetName(&total.asset.name),
            Word::Sum(total.total),
        ],
    )
}

impl Printed for AssetTotal {
    ghost use Rattle.state_lines.specs.AssetTotals.{words_of_total};

    ghost words = { words_of_total };

    fn push_line(&self, out: &mut Vec<u8>, line: u64) -> Result<(), NoMemory> {
        push_total_line(out, line, self)
    }
}
