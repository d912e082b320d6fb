//! One loop for every command that reads lines. A command says what each line does and emits.
//! The loop reads lines, gathers text, and hands it over before it asks for more.
#![tactic(auto)]

mod batch;
mod command;
mod fault;
mod run;

pub use batch::{gather, hand_over};
pub use command::LineCommand;
pub use fault::RunFault;
pub use run::run_lines;
