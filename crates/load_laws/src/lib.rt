//! Laws of benchmark streams: a replay of one begins, and its length never ends it.
#![tactic(auto)]

mod laws;

pub use laws::made_streams;
