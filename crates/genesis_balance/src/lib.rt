//! The ledger of a genesis: its maps are maps; if no rule is broken, its pots hold the supply.
#![tactic(auto)]

mod laws;

pub use laws::{genesis_holds_supply, genesis_is_sound};
