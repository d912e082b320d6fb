//! The shortfall of DReps' Yes on a proposal: silent DReps, and the fewest that reach the need.
#![tactic(auto)]

mod short;

pub use short::Short;
