use cert_pool::PoolBook;
use committee_book::HotBook;
use drep_book::DrepBook;
use gov_actions::EnactState;
use proposal_store::ProposalStore;
use snapshots::Snapshots;
use stake_book::StakeBook;
use tx_records::{Pots, Rewards};

/// The parts of a ledger that a print of its state shows, borrowed; only the numbers are copied.
/// (NewEpochState of the formal specification; what is shown is own)
#[derive(Clone, Copy)]
pub struct StateView<'a> {
    /// The last slot.
    pub slot: u64,
    /// Its epoch.
    pub epoch: u64,
    /// Parameters, version, committee, constitution and last enacted ids.
    pub state: &'a EnactState,
    /// The hot keys and resignations of cold keys.
    pub hot: &'a HotBook,
    /// The registered DReps and the dormant count.
    pub dreps: &'a DrepBook,
    /// The registered pools.
    pub pools: &'a PoolBook,
    /// The accounts and the unspent outputs.
    pub stake: &'a StakeBook,
    /// The live proposals with their votes, in order of submission.
    pub proposals: &'a ProposalStore,
    /// The stakes of the pools at the last three boundaries, and the fee pot at the last one.
    pub snapshots: &'a Snapshots,
    /// The reward update that the next boundary applies.
    pub pending: Option<&'a Rewards>,
    /// The seven pots, in lovelace.
    pub pots: Pots,
}
