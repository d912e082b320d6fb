//! The lines of a source up to the first that is `end`.
#![tactic(auto)]

mod ended;
mod pass;
mod place;

pub use ended::EndedLines;
pub use pass::pass_all;
pub use place::{Place, fault_of};
