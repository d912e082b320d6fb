//! What `load` replays: a benchmark stream from three numbers, and the summary of its replay.
#![tactic(auto)]

mod summary;

pub use summary::LoadSummary;
