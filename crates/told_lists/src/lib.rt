//! The lists of a state, made again of all that the lines of its checkpoint say.
#![tactic(auto)]

mod books;
mod epoch;
mod frozen;
mod governance;
mod lists;
mod live;

pub use lists::lists_of;
