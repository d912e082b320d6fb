//! What a boundary freezes when an epoch begins, from the books of the ledger.
#![tactic(auto)]

mod deposits;
mod laws;
mod pools;
mod proposals;
mod stakes;

pub use cert_pool as of_cert_pool;
pub use deposits::{deposits_by_account, deposits_by_pool};
pub use laws::{pools_are_frozen, words_are_of_snapshots};
pub use pools::frozen_pools;
pub use proposals::copied_proposals;
pub use stakes::pool_stakes;
