//! The decisions of a boundary by the ended epoch's pass, and its steps over the parts of a ledger.
#![tactic(auto)]

mod halves;
mod pass;

pub use frozen_reads as of_frozen_reads;
pub use halves::{after_pass, before_pass};
pub use pass::{Decided, decide};
pub use ratify as of_ratify;
