//! What a run of the program comes to, by the command that its words name.
#![tactic(auto)]

mod clauses;
mod statuses;

pub use clauses::run_clauses;
pub use explain_loop as of_explain_loop;
pub use replay_loop as of_replay_loop;
pub use statuses::{status_of_check, status_of_resume};
