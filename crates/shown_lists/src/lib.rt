//! Maps made again of lines that show each key of another list with its value, if it has one.
#![tactic(auto)]

mod hot;
mod pools;

pub use hot::{MemberRow, hot_of};
pub use pools::accounts_of;
