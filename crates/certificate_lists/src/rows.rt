//! What the lines of a snapshot say, in the order of the lines.

use book_records::Entry;
use coin_frac::Unit;
use gov_actions::{Action, HotState, LastIds, Vote};
use gov_ids::{Account, ActionId, Credential, PoolId, Voter};
use listed::Listed;
use pparams::Params;
use state_kinds::ProposalRow;

/// The epoch that ends, and how it was governed at its beginning.
#[derive(Drop)]
pub struct GovernedRows {
    /// The epoch, the version, and the treasury in lovelace.
    pub head: (u64, (u32, u32), u64),
    /// The hash of the constitution's document, and its script.
    pub constitution: ([u8; 32], Option<[u8; 28]>),
    /// The threshold of the committee, if there is one.
    pub threshold: Option<Unit>,
    /// The members with their terms, and what their cold keys authorized.
    pub members: Listed<((Credential, u64), Option<HotState>)>,
    /// What other cold keys authorized.
    pub hot: Listed<(Credential, HotState)>,
    /// The last enacted ids.
    pub last: LastIds,
}

/// Who votes, and with what.
#[derive(Drop)]
pub struct VoterRows {
    /// DReps with their expiries.
    pub dreps: Listed<(Credential, u64)>,
    /// Pools of mark with their reward accounts.
    pub pools: Listed<(PoolId, Option<Account>)>,
    /// Pools with their stakes, in lovelace.
    pub mark: Listed<(PoolId, u64)>,
    /// Credentials that hold stake or are registered.
    pub entries: Listed<(Credential, Entry)>,
}

/// A proposal without its action and with the votes behind it, and its action.
pub type WholeRow = (
    (ProposalRow, Listed<(ActionId, (Voter, Vote))>),
    (ActionId, Action),
);

/// What the lines of a snapshot say, kind by kind. Whether they are the lines of a snapshot is not
/// asked: lists may be out of order, and what two lines say may differ.
#[derive(Drop)]
pub struct SnapshotRows {
    pub governed: GovernedRows,
    pub params: Params,
    pub voters: VoterRows,
    pub proposals: Listed<WholeRow>,
}
