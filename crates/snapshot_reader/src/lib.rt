//! A snapshot that may have a certificate, read from the lines of one.
#![tactic(auto)]

mod fits;
mod made;
mod read;
mod told;

pub use read::read_snapshot;
