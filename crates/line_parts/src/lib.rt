//! Parts of a text that are read from its lines: one part after another, any number of them.
#![tactic(auto)]

mod group;
mod many;
mod part;
mod then;

pub use group::{As, GroupOf};
pub use many::Many;
pub use part::Part;
pub use then::Then;
