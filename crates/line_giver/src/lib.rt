//! Lines that are looked at before they are passed, from a source or from a list.
#![tactic(auto)]

mod giver;
mod in_list;
mod sourced;

pub use giver::LineGiver;
pub use in_list::ListedLines;
pub use sourced::SourcedLines;
