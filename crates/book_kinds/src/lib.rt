//! The kinds of lines of the books: ids and numbers alone.
#![tactic(auto)]

mod books;
mod epoch;
mod outputs;
mod pools;
mod stakes;
mod votes;
mod words;

pub use books::{AccountLines, DrepLines, RewardLines, UsedLines};
pub use epoch::{ExpiryLines, PoolAccountLines, ProposalIdLines};
pub use outputs::{AssetLines, OutputLines};
pub use pools::{NextLines, PoolLines, read_unit};
pub use stakes::{GoLines, MarkLines, SetLines};
pub use state_lines as of_state_lines;
pub use votes::{HotLines, VoteLines};
pub use words::read_hot_state;
