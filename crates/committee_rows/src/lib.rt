//! The committee and what cold keys authorized, made again of the rows that show them.
#![tactic(auto)]

mod committee;

pub use committee::{Governing, governing_of};
