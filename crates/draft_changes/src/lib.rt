//! The changes of a draft to accounts, pools, DReps and hot keys, and the books with them.
#![tactic(auto)]

mod account_changes;
mod changed_names;
mod changes;
mod drep_changes;
mod hot_changes;
mod laws;
mod pool_changes;
mod voters;

pub use account_changes::AccountChanges;
pub use changed_names::ChangedNames;
pub use changes::Changes;
pub use drep_changes::DrepChanges;
pub use hot_changes::HotChanges;
pub use laws::{laid_over_changes_names, leaving_keeps_other_votes};
pub use ledger_books as of_ledger_books;
pub use ledger_books::of_snapshots;
pub use pool_changes::PoolChanges;
