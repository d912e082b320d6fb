//! The laws that a ledger has the form of the formats if the records that reach it have it.
#![tactic(auto)]

mod laws;

pub use laws::{entries_are_few, genesis_has_form, reached_has_form, records_keep_form};
