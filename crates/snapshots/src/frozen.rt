use crate::hot::HotList;
use gov_ids::{Account, Credential, PoolId};
use gov_model::of_book_records::DefaultVote;
use gov_model::of_gov_actions::{EnactState, Proposal};
use listed::Listed;

/// What is frozen when an epoch begins, except the account entries, which their book keeps.
/// (CIP-1694, Changes to the stake snapshot; EPOCH of the formal specification)
#[derive(Drop)]
pub struct Frozen {
    /// The epoch that begins.
    pub epoch: u64,
    /// A pass starts from it: parameters, version, committee, constitution, last ids, treasury.
    pub start: EnactState,
    /// The DReps in order of credentials, each with the last epoch in which it counts as active.
    pub dreps: Listed<(Credential, u64)>,
    /// The pools of mark in the order of their ids.
    pub pools: Listed<FrozenPool>,
    /// The hot keys and resignations, in the order of cold keys.
    pub hot: HotList,
    /// The proposals with their votes, in order of submission.
    pub proposals: Listed<Proposal>,
}

/// A pool of mark at the freeze. (RatifyEnv of the formal specification)
#[derive(Clone, Copy, Debug, PartialEq, Eq)]
pub struct FrozenPool {
    pub pool: PoolId,
    /// Its reward account, none where the pool is no longer registered.
    pub account: Option<Account>,
    /// Lovelace: its stake of mark, and deposits of proposals whose return account delegates to it.
    pub stake: u64,
    /// How it counts without a vote, except on hard forks: by its reward account's vote delegation.
    pub default_vote: DefaultVote,
}
