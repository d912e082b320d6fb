//! Readers of protocol parameters and governance actions.
#![tactic(auto)]

mod actions;
mod entries;
mod kinds;
mod params;
mod thresholds;
mod updates;
mod whole;

pub use actions::read_action;
pub use kinds::{ActionField, ParamsField, UpdateField};
pub use params::{read_params, read_update};
