//! All lines that the program writes except those of a state, each through one reused buffer.
#![tactic(auto)]

mod boundaries;
mod epochs;
mod line_list;
mod lines;
mod parts;
mod pots;
mod replies;
mod rule_texts;
mod sinks;
mod words;

pub use boundaries::{epoch_text, put_epoch};
pub use epochs::{
    kind_name, push_block_line, push_epoch_line, push_paid_line, push_removed_line,
    push_retired_line, push_stake_line, push_tally_line,
};
pub use line_list::LineList;
pub use lines::{LineTaker, Printed, put_each, put_one};
pub use parts::{Word, push_line, push_part, push_parts};
pub use pots::{PotsWord, pots_line, push_pots_line};
pub use replies::reply_line;
pub use sinks::write_epoch;
pub use words::{end_line, push_digits, words_line};
