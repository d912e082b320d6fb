//! Applies any record to a ledger: a transaction, a block with its boundary, a reward update.
#![tactic(auto)]

mod applied;
mod blocks;
mod records;

pub use applied::Applied;
pub use epoch_rule::of_par_count;
pub use records::{apply_record, apply_record_alone};
