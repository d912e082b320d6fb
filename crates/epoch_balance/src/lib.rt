//! The balance of a boundary: each step, and all together, move the pots by their flows.
#![tactic(auto)]

mod boundary;
mod steps;

pub use boundary::{boundary_balances, payments_are_covered};
pub use steps::{
    cuts_balance, donations_balance, dormancy_balances, enactment_balances, freeze_balances,
    members_balance, payments_balance, pools_balance, removals_balance, rewards_balance,
    snapshots_balance, terms_balance,
};
