//! Lines that a writer hands over, gathered for a sink as the text of a command.
#![tactic(auto)]

mod through;

pub use through::Through;
