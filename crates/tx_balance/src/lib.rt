//! Allowed transactions move pots by their flows, assets by mint; supply stays, maps stay maps.
#![tactic(auto)]

mod laws;

pub use laws::{
    allowed_keeps_supply, allowed_stays_sound, failed_balances, failed_keeps_assets,
    moves_keep_supply, passed_balances, passed_mints,
};
