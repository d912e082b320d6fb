//! Accounts made again of the lines that show them, each with its output stake.
#![tactic(auto)]

mod accounts;
mod entries;
mod stakes;

pub use accounts::accounts_of;
