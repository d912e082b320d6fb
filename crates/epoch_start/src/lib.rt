//! What an epoch begins with: the copy of all that its pass reads, and the count of frozen entries.
#![tactic(auto)]

mod copies;
mod counts;

pub use copies::frozen_copy;
pub use counts::begun_count;
pub use freeze as of_freeze;
pub use freeze::of_cert_pool;
pub use genesis_books::of_committee_book;
pub use ledger_books as of_ledger_books;
