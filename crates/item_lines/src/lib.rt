//! Items that are printed in the order of their list, each as lines.
#![tactic(auto)]

mod items;

pub use items::{ItemLines, put_items};
