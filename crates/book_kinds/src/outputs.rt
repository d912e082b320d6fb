//! Outputs and their assets.
ghost use Rattle.std.specs.Prelude.{◌≡◌};
ghost use Rattle.book_kinds.specs.Outputs.{held_of, name_of};

use gov_ids::{
    Address, AssetId, AssetName, OutRef, hash28, read_address, read_asset_name, read_ref,
};
use line_kinds::{LineKind, read_number, word};
use no_memory::NoMemory;
use report::{Word, push_line};
use state_lines::push_asset_line;

/// The lines of outputs, without their assets. (Own)
pub struct OutputLines;

impl LineKind for OutputLines {
    type Item = (OutRef, (Address, u64));

    ghost use Rattle.book_kinds.specs.Outputs.{is_output_line, output_in, output_line};

    ghost words = { output_line };

    ghost form = { is_output_line };

    ghost reading = { output_in };

    fn laws() {}

    fn read(texts: &[&str]) -> Option<(OutRef, (Address, u64))> {
        let reference = read_ref(word(texts, 1))?;
        let address = read_address(word(texts, 2))?;
        let lovelace = read_number(word(texts, 3))?;
        Some((reference, (address, lovelace)))
    }

    fn push(output: &(OutRef, (Address, u64)), out: &mut Vec<u8>) -> Result<(), NoMemory> {
        let (reference, (address, lovelace)) = output;
        push_line(
            out,
            0,
            &[
                Word::Text("output"),
                Word::Output(reference),
                Word::Address(address),
                Word::Number(*lovelace),
            ],
        )
    }
}

/// Reads an asset's name, `-` if it is empty.
fn read_name(text: &str) -> Option<AssetName>
    ensures { result ≡ name_of text.now }
{
    match text {
        "-" => Some(AssetName::new(&[])),
        _ => read_asset_name(text),
    }
}

/// Reads a number of at least 1.
fn read_held(text: &str) -> Option<u64>
    ensures { result ≡ held_of text.now }
{
    let n = read_number(text)?;
    if n > 0 { Some(n) } else { None }
}

/// The lines of assets of outputs. (Own)
pub struct AssetLines;

impl LineKind for AssetLines {
    type Item = (AssetId, u64);

    ghost use Rattle.text_forms.specs.Books.{is_held_asset};
    ghost use Rattle.text_model.specs.StateLines.{asset_words};
    ghost use Rattle.book_kinds.specs.Outputs.{asset_in};

    ghost words = { asset_words };

    ghost form = { is_held_asset };

    ghost reading = { asset_in };

    fn laws() {}

    fn read(texts: &[&str]) -> Option<(AssetId, u64)> {
        let policy = hash28(word(texts, 1)).ok()?;
        let name = read_name(word(texts, 2))?;
        let quantity = read_held(word(texts, 3))?;
        Some((AssetId { policy, name }, quantity))
    }

    fn push(held: &(AssetId, u64), out: &mut Vec<u8>) -> Result<(), NoMemory> {
        push_asset_line(out, 0, held)
    }
}
