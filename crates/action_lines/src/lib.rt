//! Actions as compact JSON.
#![tactic(auto)]

mod actions;
mod fields;
mod json;
mod lists;
mod updates;
mod values;

pub use actions::push_action;
