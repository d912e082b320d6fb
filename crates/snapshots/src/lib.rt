//! What boundaries keep of the stakes of pools, and what is frozen when an epoch begins.
#![tactic(auto)]

mod frozen;
mod hot;
mod stakes;

pub use frozen::{Frozen, FrozenPool};
pub use gov_model::of_book_records::DefaultVote;
pub use hot::HotList;
pub use stakes::Snapshots;
