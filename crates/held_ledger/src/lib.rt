//! The ledger that a run holds between two records, and its answers to them.
#![tactic(auto)]

mod answers;
mod crew;
mod held;
mod telling;

pub use answers::{answer, answer_alone};
pub use crew::Crew;
pub use held::Held;
pub use outlook::of_epoch_rule;
pub use replay_loop as of_replay_loop;
pub use shortfall::of_ledger_state;
pub use telling::tell;
