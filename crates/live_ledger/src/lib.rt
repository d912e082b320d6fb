//! The program's ledger: that of a genesis, drafts of transactions, and allowed transactions.
#![tactic(auto)]

mod books;
mod draft;
mod fault;
mod proposals;
mod state;

pub use draft::Draft;
pub use draft_changes as of_draft_changes;
pub use fault::GenesisFault;
pub use proposal_store as of_proposal_store;
pub use stake_book as of_stake_book;
pub use state::LiveLedger;
