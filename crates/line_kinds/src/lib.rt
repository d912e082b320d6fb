//! Readers of lines that are printed from items: each kind of line reads what it prints, and no
//! other spelling of it.
#![tactic(auto)]

mod cut;
mod each;
mod frozen;
mod kind;
mod line;
mod numbers;
mod reader;

pub use each::{read_each, read_one};
pub use frozen::Frozen;
pub use kind::LineKind;
pub use line::read_line;
pub use numbers::{read_number, word};
pub use reader::LineReader;
