//! The books of a genesis, and the first rule that it breaks.
#![tactic(auto)]

mod committee;
mod entries;
mod first;
mod genesis_rules;

pub use cert_pool as of_cert_pool;
pub use committee::first_committee;
pub use committee_book as of_committee_book;
pub use first::{first_holdings, first_keys};
pub use genesis_rules::broken_rule;
