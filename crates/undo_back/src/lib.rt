//! Old values are put back into the books of a ledger: the ledger before a record.
#![tactic(auto)]

mod books;
mod proposals;
mod stake;
mod state;
mod voters;

pub use books::undo_books;
pub use ledger_state as of_ledger_state;
pub use state::{ledger_of_parts, undo};
pub use undo_records as of_undo_records;
