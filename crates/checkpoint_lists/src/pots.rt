//! The lines of the pots, and of what is pending.

use line_kinds::{LineKind, LineReader, read_number, word};
use no_memory::NoMemory;
use report::{PotsWord, push_pots_line};
use state_kinds::{NonePendingLines, PendingLines};
use tx_records::Pots;

/// The line of the pots. Whether they are those of a state is not asked. (Own)
pub struct PotsLines;

impl LineKind for PotsLines {
    type Item = Pots;

    ghost use Rattle.checkpoint_lists.specs.Pots.{are_pots, pots_in, pots_line};

    ghost words = { pots_line };

    ghost form = { are_pots };

    ghost reading = { pots_in };

    fn laws() {}

    fn read(texts: &[&str]) -> Option<Pots> {
        let outputs = read_number(word(texts, 2))?;
        let deposits = read_number(word(texts, 4))?;
        let rewards = read_number(word(texts, 6))?;
        let fees = read_number(word(texts, 8))?;
        let donations = read_number(word(texts, 10))?;
        let treasury = read_number(word(texts, 12))?;
        let reserves = read_number(word(texts, 14))?;
        Some(Pots {
            outputs,
            deposits,
            rewards,
            fees,
            donations,
            treasury,
            reserves,
        })
    }

    fn push(pots: &Pots, out: &mut Vec<u8>) -> Result<(), NoMemory> {
        push_pots_line(out, 0, PotsWord::Pots, pots)
    }
}

/// The line of a pending update without its rewards, or the line that none is pending. (Own)
pub struct PendingOrNone;

impl LineReader for PendingOrNone {
    /// From reserves, from fees, to the treasury, in lovelace.
    type Item = Option<(u64, u64, u64)>;

    ghost use Rattle.maps.specs.Words.{none_or};
    ghost use Rattle.state_kinds.specs.States.{is_pending_line};
    ghost use Rattle.checkpoint_lists.specs.Pots.{pending_or_none};

    ghost words = { pending_or_none };

    ghost form = { none_or is_pending_line };

    fn read_line(
        text: &mut Vec<u8>,
        line: &[u8],
    ) -> Result<Option<Option<(u64, u64, u64)>>, NoMemory> {
        if let Some(()) = <NonePendingLines as LineReader>::read_line(text, line)? {
            return Ok(Some(None));
        }
        match <PendingLines as LineReader>::read_line(text, line)? {
            Some(update) => Ok(Some(Some(update))),
            None => Ok(None),
        }
    }
}
