//! The boundary steps after the pass: actions are enacted, withdrawals paid, proposals removed.
#![tactic(auto)]

mod enactment;
mod removals;
mod reports;
mod withdrawals;

pub use enactment::enacted;
pub use removals::removals_made;
pub use withdrawals::withdrawals_paid;
