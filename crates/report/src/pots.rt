ghost use Rattle.std.specs.Prelude.{◌≡◌, ◌++◌, ◌∷◌, flat_map, OnOk};
ghost use Rattle.text_model.specs.of_ledger_model.Supply.{total_of};
ghost use Rattle.text_model.specs.Replies.{pots_words};
ghost use Rattle.text_model.specs.Words.{Text, line_of, spaced};
ghost use Rattle.report.specs.Amounts.{amount_words};
ghost use Rattle.report.specs.PotsWords.{pots_word_text};

use crate::lines::Printed;
use crate::words::{end_line, push_amounts, push_digits, push_word};
use no_memory::NoMemory;
use text_model::of_tx_records::Pots;

/// The word before the pots in their line. (Own)
#[derive(Clone, Copy)]
pub enum PotsWord {
    /// The answer to a genesis.
    Genesis,
    /// The answer to a print, and the end of a boundary.
    Pots,
}

impl PotsWord {
    /// The word as a line has it.
    fn text(&self) -> &'static str
        ensures { result.now ≡ pots_word_text self.now }
    {
        match self {
            PotsWord::Genesis => "genesis",
            PotsWord::Pots => "pots",
        }
    }
}

/// The sum of the pots, in lovelace.
fn total(pots: &Pots) -> u128
    ensures { result ≡ total_of pots.now }
{
    u128::from(pots.outputs)
        + u128::from(pots.deposits)
        + u128::from(pots.rewards)
        + u128::from(pots.fees)
        + u128::from(pots.donations)
        + u128::from(pots.treasury)
        + u128::from(pots.reserves)
}

/// The pots and their sum, each with its name.
fn amounts_of(pots: &Pots) -> [(&'static str, u128); 8]
    ensures { (word : Text) → word ∷ flat_map (λ a. amount_words a.0.now a.1) result ≡ pots_words word pots.now }
{
    [
        ("outputs", u128::from(pots.outputs)),
        ("deposits", u128::from(pots.deposits)),
        ("rewards", u128::from(pots.rewards)),
        ("fees", u128::from(pots.fees)),
        ("donations", u128::from(pots.donations)),
        ("treasury", u128::from(pots.treasury)),
        ("reserves", u128::from(pots.reserves)),
        ("supply", total(pots)),
    ]
}

/// Adds the pots and their sum, after a word.
fn push_pots(line: &mut Vec<u8>, word: &str, pots: &Pots) -> Result<(), NoMemory>
    ensures { OnOk result (line.new.items ≡ line.old.items ++ spaced (pots_words word.now pots.now)) }
{
    push_word(line, word)?;
    push_amounts(line, &amounts_of(pots))?;
    Ok(())
}

/// Appends the line of the pots. After `NoMemory` the buffer may hold anything. (Own)
pub fn push_pots_line(
    out: &mut Vec<u8>,
    line: u64,
    word: PotsWord,
    pots: &Pots,
) -> Result<(), NoMemory>
    ensures { OnOk result (out.new.items ≡ out.old.items ++ line_of line (pots_words (pots_word_text word) pots.now)) }
{
    push_digits(out, line)?;
    push_pots(out, word.text(), pots)?;
    end_line(out)
}

/// Replaces the buffer by the line of the pots. After `NoMemory` it may hold anything. (Own)
pub fn pots_line(
    line: &mut Vec<u8>,
    number: u64,
    word: PotsWord,
    pots: &Pots,
) -> Result<(), NoMemory>
    ensures { OnOk result (line.new.items ≡ line_of number (pots_words (pots_word_text word) pots.now)) }
{
    line.clear();
    push_pots_line(line, number, word, pots)
}

impl Printed for (PotsWord, Pots) {
    ghost use Rattle.text_model.specs.Replies.{pots_words};
    ghost use Rattle.report.specs.PotsWords.{pots_word_text};

    ghost words = { λ p. pots_words (pots_word_text p.0) p.1 };

    fn push_line(&self, out: &mut Vec<u8>, line: u64) -> Result<(), NoMemory> {
        push_pots_line(out, line, self.0, &self.1)
    }
}
