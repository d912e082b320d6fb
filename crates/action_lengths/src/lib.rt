//! The law that a line is longer than the text of each action that it proposes.
#![tactic(auto)]

mod laws;

pub use laws::lines_hold_their_actions;
