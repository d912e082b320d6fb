//! All lines of a checkpoint, read one kind after another.
#![tactic(auto)]

mod params;
mod read;

pub use params::{ParamsPart, ProposedActions};
pub use read::{Gathered, read_lists};
