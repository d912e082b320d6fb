//! Laws of followed streams: a record is a step of the ledger, and a rollback goes back to one.
#![tactic(auto)]

mod laws;

pub use further_laws as of_further_laws;
pub use laws::{
    epoch_is_of_slot, followed_supply_stays, kept_are_not_later, kept_fronts_are_sound,
    plain_is_step, rollback_leaves_kept,
};
