//! Whether a state of plain lists is sound to be resumed: one test for each part of `IsResumable`.
#![tactic(auto)]

mod amounts;
mod chains;
mod clock;
mod entries;
mod forms;
mod frozen;
mod ids;
mod order;
mod supply;

pub use chains::are_chained;
pub use clock::{Clock, has_plain_form, is_timed, is_within_dormant_bound};
pub use entries::{are_counted_entries, delegates_to_registered};
pub use forms::{
    Books, FrozenLists, are_pool_accounts, are_stakes, has_book_form, have_own_ids,
    is_pending_form, is_snapshot,
};
pub use frozen::{Voted, frozen_of_live};
pub use ids::uses_ids;
pub use order::{Key, are_rising, find, has_key, has_member, is_map};
pub use supply::{
    are_within, holds_deposits, holds_lovelace, holds_rewards, holds_supply, is_covered,
    is_held_within, is_within_supply,
};
