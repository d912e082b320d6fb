//! Prints of a state and of its outputs' assets: lines one by one through a buffer, without copies.
#![tactic(auto)]

mod books;
mod governance;
mod items;
mod kept;
mod outputs;
mod proposals;
mod state;
mod view;
mod walk;

pub use outputs::put_assets;
pub use proposals::put_proposal;
pub use state::{put_state, state_text, write_state};
pub use view::StateView;
