//! The command `resume` over the ledger.
#![tactic(auto)]

mod resumed;
mod run;

pub use run::resume_ledger;
