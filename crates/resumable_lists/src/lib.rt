//! Whether plain lists are a state that is sound to be resumed.
#![tactic(auto)]

mod epoch;
mod form;
mod ledger;
mod sound;

pub use sound::is_resumable;
