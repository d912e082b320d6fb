//! The reading of records of a followed stream: those of a replay, and the rollback.
#![tactic(auto)]

mod lines;
mod records;

pub use lines::read_follow;
