//! The records of a stream that is followed: those of a replay, and the rollback.
#![tactic(auto)]

mod record;
pub mod rules;

pub use record::{FollowReading, FollowRecord};
