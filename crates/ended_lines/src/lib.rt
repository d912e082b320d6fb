//! Lines up to the first one that is `end`.
#![tactic(auto)]

mod pass;
mod up_to_end;

pub use pass::pass_to_end;
pub use up_to_end::{Stand, UpToEnd};
