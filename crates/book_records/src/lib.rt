//! The plain types that the ledger's books keep.
#![tactic(auto)]

mod pool;

pub use assets as of_assets;
use assets::Assets;
use gov_ids::{Address, Drep, PoolId};
pub use pool::{DefaultVote, Pool, PoolTerms};

/// An unspent output. (UTxO of the formal specification)
#[derive(Drop)]
pub struct Output {
    /// Who may spend it, with its stake part.
    pub address: Address,
    /// Its amount, in lovelace.
    pub lovelace: u64,
    /// Its native assets, in order, each once.
    pub assets: Assets,
}

/// A registered account. (DState of the formal specification: rewards, deposits and delegations)
#[derive(Clone, Copy, Debug, PartialEq, Eq)]
pub struct Registered {
    /// What its registration paid, in lovelace.
    pub deposit: u64,
    /// Its reward balance, in lovelace.
    pub rewards: u64,
    /// The pool that it delegates its stake to.
    pub pool: Option<PoolId>,
    /// The DRep that it delegates its vote to.
    pub drep: Option<Drep>,
}

/// A credential that holds stake or is registered.
#[derive(Clone, Copy, Debug, PartialEq, Eq)]
pub struct Entry {
    /// The lovelace of the outputs with this stake credential.
    pub stake: u64,
    /// Its registration.
    pub registered: Option<Registered>,
}

/// A registered DRep. (GState of the formal specification)
#[derive(Clone, Copy, Debug, PartialEq, Eq)]
pub struct DrepState {
    /// What its registration paid, in lovelace.
    pub deposit: u64,
    /// The last epoch in which it counts as active.
    pub expiry: u64,
}
