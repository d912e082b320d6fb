/// A list of a genesis whose entries have names.
#[derive(Clone, Copy, Debug, PartialEq, Eq)]
pub enum GenesisList {
    /// The members of the committee.
    Members,
    /// The outputs.
    Outputs,
    /// The accounts.
    Accounts,
    /// The pools.
    Pools,
    /// The DReps.
    Dreps,
}

/// Something that is wrong with a genesis. An index is a place in a list, from 0.
#[derive(Clone, Copy, Debug, PartialEq, Eq)]
pub enum GenesisProblem {
    /// The supply, in lovelace, is above the limit.
    SupplyTooLarge(u64),
    /// The name of the entry at this index is at an earlier index of its list too.
    Repeated(GenesisList, u32),
    /// The account at this index delegates to a pool that is not listed.
    UnknownPool(u32),
    /// The account at this index delegates to a DRep that is not listed.
    UnknownDrep(u32),
    /// The output, or the reward account of the pool, at this index is of another network.
    WrongNetwork(GenesisList, u32),
    /// All lovelace that the genesis lists, and its supply, which is another number.
    SumWrong(u128, u64),
}
