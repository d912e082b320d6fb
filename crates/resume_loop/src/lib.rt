//! The command `resume` over any state that can be read from a checkpoint.
#![tactic(auto)]

mod fault;
mod head;
mod renumbered;
mod run;
mod state;

pub use fault::NoCheckpoint;
pub use run::resume;
pub use state::ResumedState;
