//! The laws over runs, for every ledger that records reach from a genesis.
//! They say: flows balance, the supply stays, only mint changes assets, an epoch ratifies one list,
//! what holds between boundaries, what was counted, and that pulses do not show.
#![tactic(auto)]

mod laws;

pub use laws::{
    assets_change_by_mint, boundaries_keep_sound, counted_is_the_pulses, drep_stakes_are_within,
    epochs_ratify_one_list, flows_balance, genesis_begins_sound, pool_stakes_are_within,
    pulses_do_not_show, records_keep_sound, stands_between_boundaries, supply_stays,
};
