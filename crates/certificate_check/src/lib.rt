//! Whether lines are a certificate.
#![tactic(auto)]

mod check;

pub use check::Certificates;
