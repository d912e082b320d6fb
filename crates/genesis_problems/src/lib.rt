//! Everything that is wrong with a genesis, with its place and numbers.
#![tactic(auto)]

mod laws;
mod lovelace;
mod names;
mod networks;
mod problem;
mod targets;
mod told;
mod whole;

pub use laws::first_problem;
pub use problem::{GenesisList, GenesisProblem};
pub use whole::genesis_problems;
