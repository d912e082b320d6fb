use gov_actions::of_coin_frac::Unit;
use gov_ids::{Account, Credential, Drep, PoolId};

/// A certificate. Deposits and refunds are in lovelace; one not stated is what is due (own).
/// (DELEG, POOL and GOVCERT of the formal specification)
#[derive(Clone, Copy)]
pub enum Cert {
    /// An account is registered and may delegate at once.
    AccountReg {
        cred: Credential,
        deposit: Option<u64>,
        pool: Option<PoolId>,
        drep: Option<Drep>,
    },
    /// An account leaves.
    AccountUnreg {
        cred: Credential,
        refund: Option<u64>,
    },
    /// An account delegates its stake, its vote, or both.
    Delegate {
        cred: Credential,
        pool: Option<PoolId>,
        drep: Option<Drep>,
    },
    /// A pool is registered, or its future terms are set. Cost and pledge are in lovelace.
    /// `account` is the reward account; `key` is the hash of the pool's key for blocks.
    PoolReg {
        pool: PoolId,
        cost: u64,
        pledge: u64,
        margin: Unit,
        account: Account,
        key: Option<[u8; 32]>,
    },
    /// A pool retires: it is gone when this epoch begins.
    PoolRetire {
        pool: PoolId,
        epoch: u64,
    },
    /// A DRep is registered.
    DrepReg {
        cred: Credential,
        deposit: Option<u64>,
    },
    /// A DRep leaves.
    DrepUnreg {
        cred: Credential,
        refund: Option<u64>,
    },
    /// A DRep shows that it is active.
    DrepUpdate {
        cred: Credential,
    },
    /// A cold key gets a hot key, which replaces an earlier one.
    HotAuth {
        cold: Credential,
        hot: Credential,
    },
    /// A cold key resigns.
    HotResign {
        cold: Credential,
    },
}
