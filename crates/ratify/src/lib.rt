//! The pass over a frozen epoch: what is ratified, what expires, the state then, and the tallies.
#![tactic(auto)]

mod laws;
mod outcome;
mod pass;
mod passing;
mod ready;

pub use laws::whole_is_ratified;
pub use outcome::{Outcome, ratify, ratify_tallied};
pub use passing::Passing;
pub use tally as of_tally;
pub use tally::of_drep_pulser;
