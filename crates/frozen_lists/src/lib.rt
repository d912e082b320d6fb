//! What an epoch froze, made of plain lists.
#![tactic(auto)]

mod deposits;
mod frozen;
mod pools;

pub use deposits::deposits_by_account;
pub use frozen::{Parts, frozen_of};
