//! The lines of a checkpoint, read into plain lists.
#![tactic(auto)]

mod gathered;
mod groups;
mod names;
mod parts;
mod pots;
mod sections;
mod shown;

pub use gathered::{Amounts, Books, FrozenRows, Governance, Stakes};
pub use named_kinds as of_named_kinds;
pub use pots::{PendingOrNone, PotsLines};
pub use sections::{AmountLines, BookLines, FrozenLines, GovernanceLines, StakeLines};
pub use shown::shown_are_of_worlds;
