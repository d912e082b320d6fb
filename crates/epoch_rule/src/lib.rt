//! The boundary to the next epoch: the ledger after it, its report, and the next pass's outcome.
#![tactic(auto)]

mod books;
mod cells;
mod counts;
mod outlook;
mod rule;

pub use ledger_state as of_ledger_state;
pub use outlook::next_outcome;
pub use par_count as of_par_count;
pub use rule::{cross, cross_alone};
