//! The laws of runs that are cut in two and resumed from a checkpoint.
#![tactic(auto)]

mod every_resume;

pub use every_resume::laws;
