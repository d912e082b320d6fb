//! What the next two boundaries would report if no further record came, over a ledger.
#![tactic(auto)]

mod ahead;

pub use ahead::put_outlook;
pub use epoch_rule as of_epoch_rule;
