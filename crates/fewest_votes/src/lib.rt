//! The fewest silent DReps whose Yes reaches what DReps need of a frozen proposal.
#![tactic(auto)]

mod fewest;
mod fronts;
mod ranking;
mod silent;

pub use fewest::least;
pub use ranking::Ranking;
