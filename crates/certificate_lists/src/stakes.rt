//! The stakes of the pools of mark.

use gov_ids::{PoolId, read_pool};
use line_kinds::{LineKind, read_number, word};
use no_memory::NoMemory;
use report::{Word, push_line};

/// The lines of the stakes of the pools of mark, in lovelace.
pub(crate) struct PoolStakeLines;

impl LineKind for PoolStakeLines {
    type Item = (PoolId, u64);

    ghost use Rattle.text_forms.specs.Books.{is_stake};
    ghost use Rattle.certificate_model.specs.Certificate.{mark_words};
    ghost use Rattle.certificate_lists.specs.Kinds.{mark_in};

    ghost words = { mark_words };

    ghost form = { is_stake };

    ghost reading = { mark_in };

    fn laws() {}

    fn read(texts: &[&str]) -> Option<(PoolId, u64)> {
        let pool = read_pool(word(texts, 1))?;
        let stake = read_number(word(texts, 2))?;
        Some((pool, stake))
    }

    fn push(stake: &(PoolId, u64), out: &mut Vec<u8>) -> Result<(), NoMemory> {
        push_line(
            out,
            0,
            &[
                Word::Text("mark"),
                Word::Pool(&stake.0),
                Word::Number(stake.1),
            ],
        )
    }
}
