//! Fractions of lovelace and of votes, amounts with their total, a step counter, and `NoMemory`.
#![tactic(auto)]

mod fraction;
mod steps;
mod total_map;

pub use fraction::{FracFault, Ratio, Unit, reaches};
pub use no_memory::NoMemory;
pub use steps::Steps;
pub use total_map::TotalMap;

/// The greatest supply, in lovelace.
pub const SUPPLY_LIMIT: u64 = 45_000_000_000_000_000;
