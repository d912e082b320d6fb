//! The commands of the program, for any source and any sink, over the ledger. The program `conway`
//! hands it standard input and output.
#![tactic(auto)]

mod command;
mod dispatch;
mod exit;
mod runs;

pub use command_runs::of_replay_loop;
pub use command_runs::of_replay_loop::{GenesisCause, Status, Teller};
pub use dispatch::run;
pub use exit::run_to_exit;
pub use following::of_held_ledger::{Crew, Held, tell};
pub use following::{of_epoch_rule, of_ledger_state};
