//! Items made again of the rows that show them, whatever their kind.
#![tactic(auto)]

mod items;

pub use items::{RowKind, items_of};
