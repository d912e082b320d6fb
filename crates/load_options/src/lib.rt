//! The words of the commands, and what they mean.
#![tactic(auto)]

mod command;
mod number;
mod options;
mod table;
mod workers;

pub use command::{LoadCommand, MOST_ACCOUNTS, MOST_EPOCHS};
pub use table::{Command, command_of};
pub use workers::MOST_WORKERS;
