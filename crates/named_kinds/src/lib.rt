//! One line of a kind as a part of a text, told by what its lines begin with.
#![tactic(auto)]

mod frozen_names;
mod names;
mod one;

pub use one::{NamedLines, One};
