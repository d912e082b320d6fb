//! What a boundary reads of the frozen epoch: that it can be counted, DRep stakes, enacted targets.
#![tactic(auto)]

mod laws;
mod stakes;
mod targets;

pub use laws::sound_can_be_counted;
pub use stakes::stakes_of;
pub use targets::enacted_targets;
