//! The old values of all that a record may change within its epoch.
#![tactic(auto)]

mod names;
mod old;
mod outputs;
mod records;
mod transactions;
mod votes;

pub use draft_changes as of_draft_changes;
pub use records::before;
pub use transactions::before_judged;
pub use tx_rule as of_tx_rule;
