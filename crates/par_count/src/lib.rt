//! The count and the tallies by several workers: the results are those of one.
#![tactic(auto)]

mod finish;
mod gate;
mod tallies;

pub use finish::finish_shared;
pub use gate::{Gate, OpenGate};
pub use tallies::tally_all;
