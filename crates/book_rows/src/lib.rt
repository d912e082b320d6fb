//! The rows of a checkpoint that show books, as kinds whose items are made again.
#![tactic(auto)]

mod outputs;
mod pools;

pub use outputs::OutputRows;
pub use pools::PoolRows;
