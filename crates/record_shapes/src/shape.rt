use crate::form::Form;

/// The shape of a value within a record.
#[derive(Clone, Copy)]
pub enum Shape {
    /// One reader takes it whole.
    Plain(Form),
    /// A record of any kind.
    Record,
    Genesis,
    GenesisVersion,
    Params,
    Committee,
    CommitteeMembers,
    CommitteeMember,
    GenesisOutputs,
    GenesisOutput,
    GenesisAccounts,
    GenesisAccount,
    GenesisPools,
    GenesisPool,
    GenesisDreps,
    GenesisDrep,
    Block,
    Rewards,
    RewardList,
    Reward,
    Tx,
    References,
    Outputs,
    Output,
    Assets,
    Asset,
    Scripts,
    Mint,
    Minted,
    Withdrawals,
    Withdrawal,
    Certs,
    Cert,
    AccountReg,
    AccountUnreg,
    Delegate,
    PoolReg,
    PoolRetire,
    DrepReg,
    DrepUnreg,
    DrepUpdate,
    HotAuth,
    HotResign,
    Proposals,
    Proposal,
    Action,
    NoConfidence,
    UpdateCommittee,
    Credentials,
    NewMembers,
    NewMember,
    NewConstitution,
    HardForkInitiation,
    Version,
    ParameterChange,
    Update,
    ExUnits,
    Prices,
    PoolThresholds,
    DrepThresholds,
    TreasuryWithdrawals,
    Info,
    Votes,
    VoteRecord,
    Vote,
    Print,
    What,
}

/// A member of an object.
#[derive(Clone, Copy)]
pub struct Member {
    pub name: &'static str,
    /// Whether it has to be there, and not null.
    pub is_needed: bool,
    pub shape: Shape,
}

/// A kind of object, by the word of its kind.
#[derive(Clone, Copy)]
pub struct Kind {
    pub word: &'static str,
    pub shape: Shape,
}

/// What a value of a shape consists of.
#[derive(Clone, Copy)]
pub enum Layout {
    /// One reader takes it whole.
    Plain(Form),
    /// A text that is one of these words.
    Word(&'static [&'static str]),
    /// An array, each entry of this shape.
    List(Shape),
    /// An array of these entries; the last may be left out where it may.
    Array {
        entries: &'static [Shape],
        last_may_lack: bool,
    },
    /// An object.
    Object(&'static [Member]),
    /// An object that has to have each of these members.
    Whole(&'static [Member]),
    /// An object of one of these kinds; the member of this name has the word of its kind.
    OneOf {
        by: &'static str,
        kinds: &'static [Kind],
    },
}
