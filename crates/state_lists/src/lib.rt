//! A whole state as plain lists, as the lines of its checkpoint say it.
#![tactic(auto)]

mod lists;

pub use lists::{BookLists, FrozenState, StateLists};
