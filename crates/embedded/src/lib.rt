//! A ledger that a caller holds, with the number of its last line and the text of its last answer.
#![tactic(auto)]

mod ending;
mod every_session;
mod explaining;
mod fault;
mod gathered;
mod keeping;
mod resumed;
mod session;
mod state;

pub use ending::Ending;
pub use every_session::laws;
pub use fault::CheckpointFault;
pub use session::Session;
pub use state::SessionState;
