//! The two lines that only a followed stream has: of an accepted rollback, and of a refused one.
#![tactic(auto)]

mod rolled;
mod unknown;

pub use rolled::RolledLine;
pub use unknown::UnknownLine;
