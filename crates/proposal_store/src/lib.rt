//! The live proposals, in order of submission.
#![tactic(auto)]

mod added;
mod families;
mod live;
mod store;
mod voted;

pub use live::LiveProposal;
pub use store::ProposalStore;
