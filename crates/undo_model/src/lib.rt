//! An undo within the epoch: the old values that it puts back, and the laws on it.
#![tactic(auto)]

mod laws;

pub use laws::{each_record_has_old_values, undone_is_before};
