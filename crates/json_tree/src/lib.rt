//! JSON values that borrow their texts from the line. Contracts see what `serde_json` reads.
#![tactic(auto)]

mod number;
mod read;
mod value;

pub use json::Scratch;
pub use number::Number;
pub use read::read_value;
pub use value::Value;
