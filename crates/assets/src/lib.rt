//! Native assets: their lists with quantities, their totals, and the balance of taken and given.
#![tactic(auto)]

mod asset_list;
mod balance;
mod quantity;
mod totals;

pub use asset_list::AssetList;
pub use balance::AssetBalance;
pub use listed as of_listed;
pub use quantity::{Quantity, burned, minted};
pub use totals::AssetTotals;

/// What an output holds of each asset: 1 to 2^64 - 1.
/// (Value of the formal specification, without its lovelace)
pub type Assets = AssetList<u64>;

/// What a transaction mints of each asset, or burns where the quantity is below 0; never 0.
/// (The field mint of the formal specification)
pub type Mint = AssetList<i64>;
