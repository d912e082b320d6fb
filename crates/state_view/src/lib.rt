//! The lines of a whole ledger: of an accepted block, of a print of it, of its native assets.
#![tactic(auto)]

mod block;
mod put;
mod view;

pub use ledger_state as of_ledger_state;
pub use put::{put_assets, put_block, put_state};
pub use view::view_of;
