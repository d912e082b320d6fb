//! The laws that the texts of checkpoints and of certificates are cut into their lines, whatever
//! bytes follow them.
#![tactic(auto)]

mod laws;

pub use laws::{certificate_is_cut, checkpoint_is_cut};
