//! The tally certificate of a ledger's epoch: what is frozen, and what is counted of it.
#![tactic(auto)]

mod certificate;
mod counting;
mod lines;

pub use certificate::put_certificate;
pub use lines::{put_snapshot, snapshot};
