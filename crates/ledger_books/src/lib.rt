//! All parts of a ledger except what is frozen and counted: a boundary works on these.
#![tactic(auto)]

mod treasury;

use cert_pool::PoolBook;
pub use committee_book as of_committee_book;
use committee_book::HotBook;
use committee_book::of_gov_actions::EnactState;
pub use drep_book as of_drep_book;
use drep_book::DrepBook;
use listed::Boxed;
pub use proposal_store as of_proposal_store;
use proposal_store::ProposalStore;
use run_model::of_tx_records::Rewards;
pub use snapshots as of_snapshots;
use snapshots::Snapshots;
use stake_book::StakeBook;
pub use treasury::with_treasury;

/// All parts of a ledger except what is frozen and counted.
/// (NewEpochState of the formal specification)
#[derive(Drop)]
pub struct Books {
    /// 0 for the test networks, 1 for mainnet.
    pub network: u8,
    /// The length of an epoch, in slots.
    pub length: u32,
    /// The supply, in lovelace.
    pub supply: u64,
    /// The last slot.
    pub slot: u64,
    /// The epoch of that slot.
    pub epoch: u64,
    /// The outputs and the accounts, with the entries of the last freeze.
    pub stake: StakeBook,
    /// The registered pools.
    pub pools: PoolBook,
    /// The registered DReps and the dormant count.
    pub dreps: DrepBook,
    /// The hot keys and resignations of cold keys.
    pub hot: HotBook,
    /// The live proposals with their votes, in order of submission.
    pub proposals: ProposalStore,
    /// The stakes of the pools at the last three boundaries, and the fee pot at the last one.
    pub snapshots: Snapshots,
    /// Parameters, version, committee, constitution, last enacted ids and the live treasury.
    pub state: Boxed<EnactState>,
    /// The reward update that the next boundary applies.
    pub pending: Option<Rewards>,
    /// The reserves, in lovelace.
    pub reserves: u64,
    /// The fee pot, in lovelace.
    pub fees: u64,
    /// The donation pot, in lovelace.
    pub donations: u64,
}
