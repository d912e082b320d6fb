//! Amounts: the noted fees, the treasury, a pending update.

use book_kinds::of_state_lines::push_noted_fees_line;
use line_kinds::{LineKind, read_number, word};
use no_memory::NoMemory;
use report::{Word, push_line};

/// The line of the fee pot at the last boundary. (Own)
pub struct NotedFeesLines;

impl LineKind for NotedFeesLines {
    type Item = u64;

    ghost use Rattle.text_model.specs.StateLines.{noted_fees_words};
    ghost use Rattle.tx_records.specs.Limits.{is_u64};
    ghost use Rattle.state_kinds.specs.States.{noted_fees_in};

    ghost words = { noted_fees_words };

    ghost form = { is_u64 };

    ghost reading = { noted_fees_in };

    fn laws() {}

    fn read(texts: &[&str]) -> Option<u64> {
        read_number(word(texts, 2))
    }

    fn push(fees: &u64, out: &mut Vec<u8>) -> Result<(), NoMemory> {
        push_noted_fees_line(out, 0, *fees)
    }
}

/// The line of the treasury. (Own)
pub struct TreasuryLines;

impl LineKind for TreasuryLines {
    type Item = u64;

    ghost use Rattle.tx_records.specs.Limits.{is_u64};
    ghost use Rattle.state_kinds.specs.States.{treasury_in, treasury_line};

    ghost words = { treasury_line };

    ghost form = { is_u64 };

    ghost reading = { treasury_in };

    fn laws() {}

    fn read(texts: &[&str]) -> Option<u64> {
        read_number(word(texts, 1))
    }

    fn push(treasury: &u64, out: &mut Vec<u8>) -> Result<(), NoMemory> {
        push_line(out, 0, &[Word::Text("treasury"), Word::Number(*treasury)])
    }
}

/// The line of a pending update: from reserves, from fees, to the treasury, in lovelace. (Own)
pub struct PendingLines;

impl LineKind for PendingLines {
    type Item = (u64, u64, u64);

    ghost use Rattle.state_kinds.specs.States.{is_pending_line, pending_in, pending_line};

    ghost words = { pending_line };

    ghost form = { is_pending_line };

    ghost reading = { pending_in };

    fn laws() {}

    fn read(texts: &[&str]) -> Option<(u64, u64, u64)> {
        let reserves = read_number(word(texts, 2))?;
        let fees = read_number(word(texts, 4))?;
        let treasury = read_number(word(texts, 6))?;
        Some((reserves, fees, treasury))
    }

    fn push(update: &(u64, u64, u64), out: &mut Vec<u8>) -> Result<(), NoMemory> {
        push_line(
            out,
            0,
            &[
                Word::Text("pending"),
                Word::Text("reserves"),
                Word::Number(update.0),
                Word::Text("fees"),
                Word::Number(update.1),
                Word::Text("treasury"),
                Word::Number(update.2),
            ],
        )
    }
}
