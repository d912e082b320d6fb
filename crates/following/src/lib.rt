//! The command `follow` over the ledger: a ledger with its undo log, and its answers to records.
#![tactic(auto)]

mod answer;
mod blocks;
mod followed;
mod passed;
mod readings;
mod rollback;
mod run;
mod transactions;

pub use answer::answer_followed;
pub use follow_view::of_ledger_state;
pub use followed::Followed;
pub use held_ledger as of_held_ledger;
pub use held_ledger::of_epoch_rule;
pub use run::follow_ledger;
