//! What each role counts on a frozen proposal, and its threshold.
#![tactic(auto)]

mod cells;
mod committee;
mod dreps;
mod needs;
mod pools;
mod sides;
mod silent_dreps;
mod silent_pools;

pub use cells::{TallyCell, cell_of, fill_cells};
pub use committee::committee_count;
pub use drep_pulser as of_drep_pulser;
pub use dreps::drep_count;
pub use needs::need;
pub use pools::pool_count;
