//! The undo log of an epoch: old values of its records, and a mark at each block to go back to.
#![tactic(auto)]

mod back;
mod log;
mod marks;

pub use log::UndoLog;
pub use marks::Mark;
