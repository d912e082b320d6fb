//! Where bytes stop being the front of a JSON text.
#![tactic(auto)]

mod place;
mod state;
mod step;

pub use place::json_place;
