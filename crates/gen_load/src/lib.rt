//! The stream of a benchmark: a source of bytes from a seed and numbers of accounts and epochs.
#![tactic(auto)]

mod accounts;
mod epochs;
mod genesis;
mod line;
mod next;
mod parts;
mod position;
mod registrations;
mod source;

pub use source::GenSource;
