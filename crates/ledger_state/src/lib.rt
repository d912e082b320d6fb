//! The whole state after transactions, blocks and reward updates, and its parts for a boundary.
#![tactic(auto)]

mod blocks;
mod rewards;
mod state;

pub use live_ledger as of_live_ledger;
pub use run_laws as of_run_laws;
pub use state::LedgerState;
