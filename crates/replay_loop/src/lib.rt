//! The commands that read records, and `load`, over any state of a run: texts and endings.
//! The crate `commands` runs them over the ledger.
#![tactic(auto)]

mod counting;
mod every_run;
mod fault;
mod loading;
mod outcome;
mod records;
mod run_state;
mod status;
mod tell;
mod teller;
mod told;
mod told_certificates;
mod told_last;
mod told_texts;

pub use every_run::laws;
pub use fault::{AnswerFault, Answered};
pub use gathered_lines as of_gathered_lines;
pub use loading::load;
pub use outcome::Outcome;
pub use records::Records;
pub use run_state::{CertifiedState, LastState, RunState};
pub use status::{GenesisCause, Status};
pub use tell::tell_records;
pub use teller::Teller;
pub use told::{Told, tell_told};
pub use told_texts::TextTeller;
