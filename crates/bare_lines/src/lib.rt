//! Lines that have no number: who takes lines of the number 0 and passes them on without it.
#![tactic(auto)]

mod bare;
mod frozen;
mod laws;
mod puts;

pub use bare::Bare;
pub use frozen::FrozenLine;
pub use laws::lines_are_joined;
pub use puts::{put_bare, put_frozen};
pub use report as of_report;
