//! Runs of records: genesis, freeze, the ten steps of a boundary, the step of a record, and laws.
#![tactic(auto)]

pub use ledger_model::{of_gov_actions, of_tx_records};
