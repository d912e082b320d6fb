//! The reading of records: one line of JSON each.
#![tactic(auto)]

mod certs;
mod entries;
mod fault;
mod fields;
mod laws;
mod lines;
mod quantities;
mod records;

pub use action_read::read_action;
pub use fault::RecordFault;
pub use json_tree::Scratch;
pub use laws::lines_read_within_limits;
pub use lines::{read_record, read_record_with};
pub use records::record;
