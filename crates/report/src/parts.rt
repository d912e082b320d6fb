ghost use Rattle.std.specs.Prelude.{◌≡◌, ◌++◌, ◌∷◌, map, OnOk};
ghost use Rattle.text_model.specs.Words.{fraction_text, line_of, spaced, version_text};
ghost use Rattle.report.specs.WordTexts.{word_text};

use crate::words::{end_line, push_digits};
use gov_ids::{
    Account, ActionId, Address, AssetName, Credential, Drep, OutRef, PoolId, Voter, push_account,
    push_action_id, push_address, push_asset_name, push_credential, push_drep, push_hash,
    push_pool, push_ref, push_voter,
};
use no_memory::NoMemory;

/// A word of a line, by its source.
#[derive(Drop)]
pub enum Word<'a> {
    /// Unchanged.
    Text(&'a str),
    /// In decimal digits.
    Number(u64),
    /// A sum of numbers, in decimal digits.
    Sum(u128),
    /// A count of a total, or a fraction as written.
    Fraction(u64, u64),
    /// Major, then minor.
    Version(u32, u32),
    /// A hash of 32 bytes.
    Hash(&'a [u8; 32]),
    /// A hash of 28 bytes.
    Script(&'a [u8; 28]),
    /// A credential, or another id below, as texts have it.
    Credential(&'a Credential),
    Account(&'a Account),
    Address(&'a Address),
    Output(&'a OutRef),
    Action(&'a ActionId),
    Pool(&'a PoolId),
    Drep(&'a Drep),
    Voter(&'a Voter),
    AssetName(&'a AssetName),
}

/// Adds bytes.
fn push_bytes(out: &mut Vec<u8>, bytes: &[u8]) -> Result<(), NoMemory>
    ensures { OnOk result (out.new.items ≡ out.old.items ++ bytes.now) }
{
    out.extend_from_slice(bytes)?;
    Ok(())
}

/// Adds a fraction.
fn push_fraction(out: &mut Vec<u8>, num: u64, den: u64) -> Result<(), NoMemory>
    ensures { OnOk result (out.new.items ≡ out.old.items ++ fraction_text num den) }
{
    push_digits(out, num)?;
    out.push(b'/')?;
    push_digits(out, den)
}

/// Adds a version.
fn push_version(out: &mut Vec<u8>, major: u32, minor: u32) -> Result<(), NoMemory>
    ensures { OnOk result (out.new.items ≡ out.old.items ++ version_text (major, minor)) }
{
    push_digits(out, major)?;
    out.push(b'.')?;
    push_digits(out, minor)
}

/// Adds a word.
fn push_text(out: &mut Vec<u8>, word: &Word<'_>) -> Result<(), NoMemory>
    ensures { OnOk result (out.new.items ≡ out.old.items ++ word_text word.now) }
{
    match word {
        Word::Text(text) => push_bytes(out, text.as_bytes()),
        Word::Number(n) => push_digits(out, *n),
        Word::Sum(n) => push_digits(out, *n),
        Word::Fraction(num, den) => push_fraction(out, *num, *den),
        Word::Version(major, minor) => push_version(out, *major, *minor),
        Word::Hash(hash) => push_hash(out, *hash),
        Word::Script(hash) => push_hash(out, *hash),
        Word::Credential(credential) => push_credential(out, credential),
        Word::Account(account) => push_account(out, account),
        Word::Address(address) => push_address(out, address),
        Word::Output(output) => push_ref(out, output),
        Word::Action(id) => push_action_id(out, id),
        Word::Pool(pool) => push_pool(out, pool),
        Word::Drep(drep) => push_drep(out, drep),
        Word::Voter(voter) => push_voter(out, voter),
        Word::AssetName(name) => push_asset_name(out, name),
    }
}

/// Adds a word after a space. After `NoMemory` the buffer may hold anything.
pub fn push_part(out: &mut Vec<u8>, word: &Word<'_>) -> Result<(), NoMemory>
    ensures { OnOk result (out.new.items ≡ out.old.items ++ 32 ∷ word_text word.now) }
{
    out.push(b' ')?;
    push_text(out, word)
}

/// Adds words, each after a space. After `NoMemory` the buffer may hold anything.
pub fn push_parts(out: &mut Vec<u8>, words: &[Word<'_>]) -> Result<(), NoMemory>
    ensures { OnOk result (out.new.items ≡ out.old.items ++ spaced (map word_text words.now)) }
{
    for word in words {
        push_part(out, word)?;
    }
    Ok(())
}

/// Adds a line: the number of the record's line, the words, and a line feed. (Own)
/// After `NoMemory` the buffer may hold anything.
pub fn push_line(out: &mut Vec<u8>, line: u64, words: &[Word<'_>]) -> Result<(), NoMemory>
    ensures { OnOk result (out.new.items ≡ out.old.items ++ line_of line (map word_text words.now)) }
{
    push_digits(out, line)?;
    push_parts(out, words)?;
    end_line(out)
}
