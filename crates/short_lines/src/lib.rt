#![tactic(auto)]

mod adding;
mod proposals;
mod putting;

pub use fewest_votes as of_fewest_votes;
pub use proposals::put_shortfalls;
pub use putting::{put_short, short_text};
