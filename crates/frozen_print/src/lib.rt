//! The lines of what is frozen of an epoch, as a certificate has them.
#![tactic(auto)]

mod entries;
mod governance;
mod line;
mod proposals;
mod snapshot;
mod voters;

pub use snapshot::put_frozen;
