//! What there is to say of a line beside its reading: what of its JSON value is not of the shape
//! that it has to be of, with its path, and the names that nobody reads.
#![tactic(auto)]

mod laws;
mod line;
mod note;
mod path;
mod unread;
mod walk;

pub use laws::notes_are_of_records;
pub use line::read_noted;
pub use note::{Note, Noted, What};
pub use record_read::Scratch;
