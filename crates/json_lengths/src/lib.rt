//! The law that no JSON text is shorter than the value that it is, printed without spaces.
#![tactic(auto)]

mod laws;

pub use laws::texts_hold_their_values;
