//! What the frozen proposals of a state lack of what DReps need.
#![tactic(auto)]

mod closing;
mod state;

pub use closing::close;
pub use ledger_state as of_ledger_state;
pub use ledger_state::of_live_ledger;
pub use short_lines::of_fewest_votes::{Ranking, least};
pub use short_lines::{put_short, put_shortfalls, short_text};
pub use shortfall_model::Short;
pub use state::put_shortfall;
