//! What a value within a record has to be: its form, its entries, its members. One table of all.
#![tactic(auto)]

mod form;
mod shape;
mod table;

pub use form::Form;
pub use shape::{Kind, Layout, Member, Shape};
pub use table::layout;
