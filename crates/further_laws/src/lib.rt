//! The laws over the definitions of checkpoints, certificates and followed streams.
#![tactic(auto)]

mod laws;

pub use laws::{
    count_never_falls, follow_is_replay, followed_is_sound, kept_are_accepted,
    parts_are_the_counts, reached_entries_count, reached_is_certified, reached_is_resumable,
    reached_is_timed, reached_were_proposed, replay_is_resumed, resumable_is_sound,
    rollback_stays_in_epoch, short_by_form, verdicts_are_of_one_list,
};
pub use run_laws as of_run_laws;
