//! The line of a ledger that an accepted rollback left.
#![tactic(auto)]

mod rolled;

pub use ledger_state as of_ledger_state;
pub use rolled::{put_rolled, rolled_text};
