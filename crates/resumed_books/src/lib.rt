//! The books of a ledger made of plain lists in order, with what was frozen and counted of them.
#![tactic(auto)]

mod count;
mod frozen;
mod keyed;
mod proposals;
mod stake;

pub use count::counted_of;
pub use keyed::{dreps_of, hot_of, pools_of};
pub use proposals::proposals_of;
pub use stake::stake_of;
