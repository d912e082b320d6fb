//! The lines of actions, read as the actions that print them, and otherwise not.
#![tactic(auto)]

mod line;
mod text;

pub use line::{ActionLines, actions_are_of_proposals};
