//! The lines of the snapshot of a certificate, read into plain lists group by group.
#![tactic(auto)]

mod each;
mod groups;
mod heads;
mod names;
mod proposals;
mod read;
mod rows;
mod shown;
mod stakes;

pub use read::read_rows;
pub use rows::{GovernedRows, SnapshotRows, VoterRows};
pub use shown::shown_are_of_snapshots;
