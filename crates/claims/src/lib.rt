//! The results of a tally certificate: the stakes of DReps, and each proposal's parts and verdict.
#![tactic(auto)]

mod blocks;
mod claims;
mod part_line;
mod parts;
mod sides;
mod stakes;
mod verdicts;

pub use claims::put_claims;
