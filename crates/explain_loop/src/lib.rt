//! The command `explain` over any state that can say all rules that a record breaks.
#![tactic(auto)]

mod command;
mod every_explanation;
mod place;
mod reading;
mod run;
mod state;
mod told;

pub use every_explanation::laws;
pub use explain_print as of_explain_print;
pub use run::explain;
pub use state::ExplainedState;
pub use told::put_explained;
