//! What a snapshot of plain lists froze, and the stakes of its DReps.
#![tactic(auto)]

mod certified;
mod counts;
mod laws;
mod plain;

pub use certified::{Certified, certified_of};
pub use laws::fits_can_be_counted;
pub use plain::PlainSnapshot;
