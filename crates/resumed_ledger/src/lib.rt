//! The ledger of the lists of a state that can be resumed.
#![tactic(auto)]

mod books;
mod frozen;
mod ledger;

pub use ledger::ledger_of_lists;
