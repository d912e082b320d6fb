//! The laws that the ledgers of byte streams can be resumed and certified.
#![tactic(auto)]

mod laws;

pub use claim_lengths::of_further_laws;
pub use laws::{bytes_are_certified, bytes_are_resumable, bytes_count_fits, bytes_give_form};
