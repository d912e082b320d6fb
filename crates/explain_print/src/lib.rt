//! The lines of broken rules, of what is wrong with what was read first, and of what there is to
//! say of the values of a line.
#![tactic(auto)]

mod first;
mod lined;
mod notes;
mod problems;
mod rules;

pub use explain_model as of_explain_model;
pub use first::put_first;
pub use notes::put_notes;
pub use rules::{put_malformed, put_rules, put_too_long};
