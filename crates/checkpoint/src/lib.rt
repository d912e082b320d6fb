//! A checkpoint as lines in memory: written of a ledger, and read into one.
#![tactic(auto)]

mod fault;
mod reading;

pub use checkpoint_print::write;
pub use fault::CheckpointFault;
pub use reading::read;
