//! A snapshot as plain lists.

use book_records::Entry;
use frozen_lists::Parts;
use gov_ids::{Account, Credential, PoolId};
use listed::Listed;

/// What an epoch froze, as plain lists; amounts are in lovelace.
#[derive(Drop)]
pub struct PlainSnapshot {
    /// The epoch, the state that can be enacted, DReps, hot keys and proposals.
    pub parts: Parts,
    /// Credentials that hold stake or are registered, in order.
    pub entries: Listed<(Credential, Entry)>,
    /// Pools with their stakes, in order of ids.
    pub mark: Listed<(PoolId, u64)>,
    /// The reward accounts of registered pools of mark, in order of ids.
    pub accounts: Listed<(PoolId, Account)>,
}
