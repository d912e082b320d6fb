//! What the lines of a checkpoint say, in the order of the lines.

use book_records::{DrepState, Entry, Pool, PoolTerms};
use coin_frac::Unit;
use gov_actions::{HotState, LastIds, Vote};
use gov_ids::{Account, ActionId, Address, AssetId, Credential, OutRef, PoolId, TxId, Voter};
use listed::Listed;
use state_kinds::ProposalRow;
use tx_records::Pots;

/// Where the chain is, how it is governed, and what was enacted last.
#[derive(Drop)]
pub struct Governance {
    /// The number of the last line read, the network, the length of an epoch in slots, and how
    /// many frozen entries were counted.
    pub head: (u64, u64, u64, u64),
    /// Slot, epoch, version and dormant count.
    pub now: (u64, u64, (u32, u32), u64),
    /// The hash of the constitution's document, and its script.
    pub constitution: ([u8; 32], Option<[u8; 28]>),
    /// The threshold of the committee, if there is one.
    pub threshold: Option<Unit>,
    /// The members with their terms, and what their cold keys authorized.
    pub members: Listed<((Credential, u64), Option<HotState>)>,
    /// What other cold keys authorized.
    pub hot: Listed<(Credential, HotState)>,
    /// The last enacted ids.
    pub last: LastIds,
}

/// The books. Whether their lists are in order is not asked.
#[derive(Drop)]
pub struct Books {
    pub dreps: Listed<(Credential, DrepState)>,
    /// Pools, each with the lines of future terms behind it.
    pub pools: Listed<((PoolId, Pool), Listed<(PoolId, PoolTerms)>)>,
    /// Credentials that hold stake or are registered.
    pub entries: Listed<(Credential, Entry)>,
    /// Outputs, each with its assets.
    pub outputs: Listed<((OutRef, (Address, u64)), Listed<(AssetId, u64)>)>,
    /// Proposals without their actions, each with the votes behind it.
    pub proposals: Listed<(ProposalRow, Listed<(ActionId, (Voter, Vote))>)>,
}

/// What boundaries keep of the stakes of pools and of the fees, in lovelace.
#[derive(Drop)]
pub struct Stakes {
    pub mark: Listed<(PoolId, u64)>,
    pub set: Listed<(PoolId, u64)>,
    pub go: Listed<(PoolId, u64)>,
    pub noted_fees: u64,
}

/// What is pending, the pots, and the used ids.
#[derive(Drop)]
pub struct Amounts {
    /// From reserves, from fees, to the treasury, in lovelace, if an update is pending.
    pub pending: Option<(u64, u64, u64)>,
    pub rewards: Listed<(Credential, u64)>,
    pub pots: Pots,
    pub used: Listed<TxId>,
}

/// What is frozen, except what other lines show.
#[derive(Drop)]
pub struct FrozenRows {
    /// In lovelace.
    pub treasury: u64,
    pub entries: Listed<(Credential, Entry)>,
    /// DReps with their expiries.
    pub dreps: Listed<(Credential, u64)>,
    pub hot: Listed<(Credential, HotState)>,
    /// Pools of mark with their reward accounts.
    pub pools: Listed<(PoolId, Option<Account>)>,
    /// The ids of proposals, each with the votes behind it.
    pub proposals: Listed<(ActionId, Listed<(ActionId, (Voter, Vote))>)>,
}
