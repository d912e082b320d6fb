//! The first steps of a boundary: the pending reward update, the snapshots, the reaping of pools.
#![tactic(auto)]

mod marks;
mod pools;
mod rewards;

pub use marks::snapshots_turned;
pub use pools::pools_reaped;
pub use rewards::update_applied;
