//! The results of a certificate, compared with lines that are given.
#![tactic(auto)]

mod meet;
mod meeting;

pub use meet::meet_claims;
