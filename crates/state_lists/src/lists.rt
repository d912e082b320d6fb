mod parts;

use book_records::{DrepState, Entry, Output, Pool, Registered};
use gov_actions::{EnactState, HotState, Proposal};
use gov_ids::{Account, Credential, OutRef, PoolId, TxId};
use listed::Listed;
use resume_checks::Clock;
use snapshots::Snapshots;
use tx_records::{Pots, Rewards};

/// The lists of a ledger. Whether they are in order is not asked.
pub struct BookLists {
    /// By reference.
    pub outputs: Listed<(OutRef, Output)>,
    /// The ids of used transactions.
    pub used: Listed<TxId>,
    /// By credential.
    pub accounts: Listed<(Credential, Registered)>,
    /// By id.
    pub pools: Listed<(PoolId, Pool)>,
    /// By credential.
    pub dreps: Listed<(Credential, DrepState)>,
    /// What cold keys authorized, by key.
    pub hot: Listed<(Credential, HotState)>,
    /// In order of submission.
    pub proposals: Listed<Proposal>,
}

impl Drop for BookLists {
    fn drop(self) {
        let BookLists {
            outputs,
            used,
            accounts,
            pools,
            dreps,
            hot,
            proposals,
        } = self;
        drop((outputs, used, accounts, pools));
        drop((dreps, hot, proposals));
    }
}

/// What an epoch froze, except mark and what is as in the live state.
pub struct FrozenState {
    /// In lovelace.
    pub treasury: u64,
    /// Credentials that are registered or have output stake.
    pub entries: Listed<(Credential, Entry)>,
    /// DReps with their expiries.
    pub dreps: Listed<(Credential, u64)>,
    /// The reward accounts of pools of mark that are registered.
    pub pool_accounts: Listed<(PoolId, Account)>,
    /// What cold keys authorized, by key.
    pub hot: Listed<(Credential, HotState)>,
    /// In order of submission.
    pub proposals: Listed<Proposal>,
}

impl Drop for FrozenState {
    fn drop(self) {
        let FrozenState {
            treasury: _,
            entries,
            dreps,
            pool_accounts,
            hot,
            proposals,
        } = self;
        drop((entries, dreps, pool_accounts));
        drop((hot, proposals));
    }
}

/// A whole state. Whether it is sound is not asked.
pub struct StateLists {
    pub clock: Clock,
    /// How many frozen entries were counted.
    pub counted: u64,
    /// The pots; their sum is the supply.
    pub pots: Pots,
    /// Parameters, version, committee, constitution, last ids, treasury.
    pub state: EnactState,
    pub books: BookLists,
    /// The reward update that the next boundary applies.
    pub pending: Option<Rewards>,
    /// The stakes of pools and the noted fees; mark is the frozen one too.
    pub stakes: Snapshots,
    pub frozen: FrozenState,
}

impl Drop for StateLists {
    fn drop(self) {
        let StateLists {
            clock: _,
            counted: _,
            pots: _,
            state,
            books,
            pending,
            stakes,
            frozen,
        } = self;
        drop((state, books, pending));
        drop((stakes, frozen));
    }
}
