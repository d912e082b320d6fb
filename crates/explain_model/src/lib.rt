//! What `explain` says: every rule that a record breaks, everything wrong with a genesis, what of a
//! malformed line is not of its shape, and each name that nobody reads.
#![tactic(auto)]

mod laws;

pub use genesis_problems as of_genesis_problems;
pub use laws::{first_is_refusal, no_line_where_founded, none_where_accepted};
pub use record_notes as of_record_notes;
