//! What a line of a stream says: a record, what of it is wrong, or nothing where it is blank.
#![tactic(auto)]

mod reading;

pub use reading::{is_blank, read_line, reading_by};
pub use record_read as of_record_read;
