//! The lines of a state, each into a buffer that is used again for the next.
#![tactic(auto)]

mod actions;
mod asset_total;
mod books;
mod params;
mod state_line;
mod states;

pub use actions::{
    Proposed, SnapshotName, push_none_pending_line, push_noted_fees_line, push_pending_line,
    push_pending_reward_line, push_proposal_line, push_snapshot_line, push_vote_line,
};
pub use asset_total::AssetTotal;
pub use books::{
    push_account_line, push_asset_line, push_drep_line, push_next_line, push_output_line,
    push_pool_line,
};
pub use params::put_params;
pub use state_line::StateLine;
pub use states::{
    push_committee_line, push_constitution_line, push_enacted_line, push_hot_line,
    push_member_line, push_now_line,
};
