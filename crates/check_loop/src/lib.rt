//! A command that reads texts, each up to a line `end`, and answers whether each is right.
#![tactic(auto)]

mod answers;
mod checker;
mod fault;
mod laws;
mod next;
mod run;

pub use checker::TextChecker;
pub use fault::CheckFault;
pub use laws::texts_are_cut;
pub use run::answer_texts;
