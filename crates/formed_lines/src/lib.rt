//! The law that whatever a line reads as has the form of the formats.
#![tactic(auto)]

mod laws;

pub use laws::lines_give_formed;
