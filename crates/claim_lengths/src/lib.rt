//! A law on the lines of certificates: none of their results is too long.
#![tactic(auto)]

mod laws;

pub use further_laws as of_further_laws;
pub use laws::claims_are_short;
