//! The summary of a replayed benchmark stream: its records as they are answered, and the text.
#![tactic(auto)]

mod counts;
mod lines;
mod text;
mod words;

pub use counts::{LoadCounts, summary_is_counted};
pub use lines::write_lines;
pub use text::{load_text, write_load};
