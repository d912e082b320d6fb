//! The command `follow` over any state that can be followed: its records, its text, its endings.
#![tactic(auto)]

mod command;
mod every_stream;
mod outcome;
mod plain;
mod reading;
mod run;
mod state;

pub use every_stream::laws;
pub use outcome::{FollowAnswered, FollowOutcome};
pub use run::follow;
pub use state::FollowState;
