//! The parts of a state of lists.
ghost use Rattle.std.specs.Prelude.{◌≡◌};

use super::{BookLists, FrozenState, StateLists};
use book_records::{DrepState, Entry, Output, Pool, Registered};
use gov_actions::{EnactState, HotState, Proposal};
use gov_ids::{Account, Credential, OutRef, PoolId, TxId};
use listed::Listed;
use resume_checks::Clock;
use snapshots::Snapshots;
use tx_records::{Pots, Rewards};

/// Outputs, used ids, accounts, pools, DReps, hot keys and proposals.
type BookParts = (
    Listed<(OutRef, Output)>,
    Listed<TxId>,
    Listed<(Credential, Registered)>,
    Listed<(PoolId, Pool)>,
    Listed<(Credential, DrepState)>,
    Listed<(Credential, HotState)>,
    Listed<Proposal>,
);

/// The treasury in lovelace, account entries, DReps, reward accounts of pools, hot keys, proposals.
type FrozenParts = (
    u64,
    Listed<(Credential, Entry)>,
    Listed<(Credential, u64)>,
    Listed<(PoolId, Account)>,
    Listed<(Credential, HotState)>,
    Listed<Proposal>,
);

/// The clock, the count, the pots, the live state, the books, what is pending, the stakes of pools,
/// and what was frozen.
type StateParts = (
    Clock,
    u64,
    Pots,
    EnactState,
    BookLists,
    Option<Rewards>,
    Snapshots,
    FrozenState,
);

impl BookLists {
    /// The lists, in the order of the fields.
    pub fn into_parts(self) -> BookParts
        ensures { self ≡ record {
          outputs = result.0;
          used = result.1;
          accounts = result.2;
          pools = result.3;
          dreps = result.4;
          hot = result.5;
          proposals = result.6;
        } }
    {
        let BookLists {
            outputs,
            used,
            accounts,
            pools,
            dreps,
            hot,
            proposals,
        } = self;
        (outputs, used, accounts, pools, dreps, hot, proposals)
    }
}

impl FrozenState {
    /// The treasury and the lists, in the order of the fields.
    pub fn into_parts(self) -> FrozenParts
        ensures { self ≡ record {
          treasury = result.0;
          entries = result.1;
          dreps = result.2;
          pool_accounts = result.3;
          hot = result.4;
          proposals = result.5;
        } }
    {
        let FrozenState {
            treasury,
            entries,
            dreps,
            pool_accounts,
            hot,
            proposals,
        } = self;
        (treasury, entries, dreps, pool_accounts, hot, proposals)
    }
}

impl StateLists {
    /// The parts, in the order of the fields.
    pub fn into_parts(self) -> StateParts
        ensures { self ≡ record {
          clock = result.0;
          counted = result.1;
          pots = result.2;
          state = result.3;
          books = result.4;
          pending = result.5;
          stakes = result.6;
          frozen = result.7;
        } }
    {
        let StateLists {
            clock,
            counted,
            pots,
            state,
            books,
            pending,
            stakes,
            frozen,
        } = self;
        (clock, counted, pots, state, books, pending, stakes, frozen)
    }
}
