//! Proposals made again of the rows that show them, live ones and frozen ones.
#![tactic(auto)]

mod frozen;
mod live;
mod short;
mod votes;

pub use frozen::{FrozenRow, frozen_of};
pub use live::{ActionRow, ProposalRows, VotedRow, proposals_of};
pub use short::are_short;
