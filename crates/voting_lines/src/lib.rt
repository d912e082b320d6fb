//! What a voting tool asks of the library, as lines: votes, counts, needs and prospects of each
//! live proposal, by a teller over the loop of `replay`.
#![tactic(auto)]

mod asked;
mod told;
mod votes;

pub use asked::tally_of;
pub use held_ledger as of_held_ledger;
pub use told::put_ledger;
pub use votes::{Votes, report_votes};
