//! The old values that an undo puts back, as plain types. Contracts see them as one value.
#![tactic(auto)]

ghost use Rattle.std.specs.Prelude.{◌≡◌};
ghost use Rattle.undo_records.specs.Parts.{before_of};

use book_records::{DrepState, Output, Pool, Registered};
use gov_actions::{HotState, Vote};
use gov_ids::{ActionId, Credential, OutRef, PoolId, TxId, Voter};
use listed::Listed;
use std::marker::Model;

/// The old values of which a ledger has one.
#[derive(Drop)]
pub struct OldValues {
    /// The last slot.
    pub slot: u64,
    /// How many epochs ended without a proposal since the last new one.
    pub dormant: u64,
    /// The fee pot, in lovelace.
    pub fees: u64,
    /// The donation pot, in lovelace.
    pub donations: u64,
    /// How many proposals there were.
    pub proposals: u64,
    /// The id of a transaction, not used yet.
    pub unused: Option<TxId>,
    /// Whether a reward update was pending. Within an epoch it stays, so no entry copies it.
    pub had_pending: bool,
}

/// The old values at some names, none where there was no entry. A name may occur again.
/// Each list is in any order.
#[derive(Drop)]
pub struct OldEntries {
    /// Unspent outputs.
    pub outputs: Listed<(OutRef, Option<Output>)>,
    /// Registered accounts.
    pub accounts: Listed<(Credential, Option<Registered>)>,
    /// Registered pools.
    pub pools: Listed<(PoolId, Option<Pool>)>,
    /// Registered DReps.
    pub dreps: Listed<(Credential, Option<DrepState>)>,
    /// Hot keys and resignations of cold keys.
    pub hot: Listed<(Credential, Option<HotState>)>,
    /// Votes on proposals.
    pub votes: Listed<((ActionId, Voter), Option<Vote>)>,
}

/// The old values of all that a record may change within its epoch, except the count.
pub struct Before {
    values: OldValues,
    entries: OldEntries,
}

impl Model for Before {
    ghost use Rattle.undo_model.specs.Undone.{Before as Old};

    ghost Value = { Old };

    ghost use Rattle.undo_records.specs.Parts.{before_of};

    ghost view = { λ a. before_of a.values a.entries };
}

impl Before {
    /// These old values.
    pub fn of_parts(values: OldValues, entries: OldEntries) -> Before
        ensures { result ≡ before_of values entries }
    {
        Before { values, entries }
    }

    /// The old values again, without taking memory.
    pub fn into_parts(self) -> (OldValues, OldEntries)
        ensures { before_of result.0 result.1 ≡ self }
    {
        let Before { values, entries } = self;
        (values, entries)
    }
}

// By hand, so that it is proved once: each crate above would prove a derived one part by part.
impl Drop for Before {
    fn drop(self) {
        let Before {
            values: _values,
            entries: _entries,
        } = self;
    }
}
