//! Certificates as lines in memory: the snapshot of one, its results, and whether lines are one.
#![tactic(auto)]

mod answer;

pub use answer::check;
pub use certificate_print::snapshot;
