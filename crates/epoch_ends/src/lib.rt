//! The last steps of a boundary before the freeze: donations, hot keys, dormancy, epoch number.
#![tactic(auto)]

mod donations;
mod ends;

pub use donations::donations_joined;
pub use ends::{dormancy_noted, members_only, next_epoch};
pub use ledger_books as of_ledger_books;
