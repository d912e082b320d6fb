//! The lines of the thirty parameters, read as the parameters that print them, and otherwise not.
#![tactic(auto)]

mod fractions;
mod front;
mod line;
mod named;
mod numbers;
mod pair;
mod params;
mod run;

pub use params::read_params;
pub use run::LinesReader;
