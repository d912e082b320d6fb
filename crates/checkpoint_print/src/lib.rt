//! The checkpoint of a ledger, written line by line from its books, without copies.
#![tactic(auto)]

mod action;
mod checkpoint;
mod frozen;
mod frozen_books;
mod frozen_proposals;
mod kept;
mod line;
mod live;
mod source;

pub use checkpoint::{put_checkpoint, write};
pub use state_view as of_state_view;
