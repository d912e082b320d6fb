//! What an action may follow, and which proposals stay.
#![tactic(auto)]

mod follows;
mod kept;

pub use follows::{follows_version, may_follow};
pub use kept::kept_after;
