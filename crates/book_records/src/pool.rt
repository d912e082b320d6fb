use coin_frac::Unit;
use gov_ids::Account;

/// What a pool asks and promises. (StakePoolParams of the formal specification)
#[derive(Clone, Copy, Debug, PartialEq, Eq)]
pub struct PoolTerms {
    /// What the pool keeps of an epoch's rewards, in lovelace.
    pub cost: u64,
    /// What its owners promise to hold, in lovelace; kept and not used.
    pub pledge: u64,
    /// The share of the rewards that the pool keeps besides; kept and not used.
    pub margin: Unit,
    /// The reward account, whose vote delegation is the pool's default vote.
    pub account: Account,
    /// The hash of the key with which the pool makes blocks, if stated.
    /// From version 11.0 on no two pools may take the same key.
    pub key: Option<[u8; 32]>,
}

/// A registered pool. (PState of the formal specification)
#[derive(Clone, Copy, Debug, PartialEq, Eq)]
pub struct Pool {
    /// What its first registration paid, in lovelace.
    pub deposit: u64,
    /// The terms in force.
    pub terms: PoolTerms,
    /// The terms that the next boundary puts in force.
    pub future: Option<PoolTerms>,
    /// The epoch that begins without it.
    pub retires: Option<u64>,
}

/// How a pool that did not vote counts, except for hard forks.
/// (CIP-1694, Ratification: the default vote of pools)
#[derive(Clone, Copy, Debug, PartialEq, Eq)]
pub enum DefaultVote {
    /// It says No, to a motion of no confidence too.
    No,
    /// It abstains.
    Abstain,
    /// It says Yes to a motion of no confidence, and No otherwise.
    NoConfidence,
}
