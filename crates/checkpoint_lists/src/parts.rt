//! The lines of a checkpoint, one kind after another.

use crate::pots::{PendingOrNone, PotsLines};
use book_kinds::{
    AccountLines, AssetLines, DrepLines, ExpiryLines, GoLines, HotLines, MarkLines, NextLines,
    OutputLines, PoolAccountLines, PoolLines, ProposalIdLines, RewardLines, SetLines, UsedLines,
    VoteLines,
};
use line_kinds::Frozen;
use line_parts::{Many, Then};
use named_kinds::One;
use state_kinds::{
    CommitteeLines, ConstitutionLines, EnactedLines, EndLines, HeadLines, MemberLines,
    NotedFeesLines, NowLines, ProposalLines, TreasuryLines,
};

/// From the first line to the last enacted ids.
pub(crate) type GovernancePart = Then<
    One<HeadLines>,
    Then<
        One<NowLines>,
        Then<
            One<ConstitutionLines>,
            Then<
                One<CommitteeLines>,
                Then<Many<One<MemberLines>>, Then<Many<One<HotLines>>, One<EnactedLines>>>,
            >,
        >,
    >,
>;

/// A pool with its future terms.
type PoolPart = Then<One<PoolLines>, Many<One<NextLines>>>;

/// An output with its assets.
type OutputPart = Then<One<OutputLines>, Many<One<AssetLines>>>;

/// A proposal with its votes.
type ProposalPart = Then<One<ProposalLines>, Many<One<VoteLines>>>;

/// The books.
pub(crate) type BooksPart = Then<
    Many<One<DrepLines>>,
    Then<Many<PoolPart>, Then<Many<One<AccountLines>>, Then<Many<OutputPart>, Many<ProposalPart>>>>,
>;

/// The stakes of pools and the noted fees.
pub(crate) type StakesPart = Then<
    Many<One<MarkLines>>,
    Then<Many<One<SetLines>>, Then<Many<One<GoLines>>, One<NotedFeesLines>>>,
>;

/// What is pending, the pots, and the used ids.
pub(crate) type AmountsPart = Then<
    One<PendingOrNone>,
    Then<Many<One<RewardLines>>, Then<One<PotsLines>, Many<One<UsedLines>>>>,
>;

/// A frozen proposal with its votes.
type FrozenProposalPart = Then<One<Frozen<ProposalIdLines>>, Many<One<Frozen<VoteLines>>>>;

/// What is frozen, and the end.
pub(crate) type FrozenPart = Then<
    Then<One<Frozen<TreasuryLines>>, Many<One<Frozen<AccountLines>>>>,
    Then<
        Then<Many<One<Frozen<ExpiryLines>>>, Many<One<Frozen<HotLines>>>>,
        Then<Many<One<Frozen<PoolAccountLines>>>, Then<Many<FrozenProposalPart>, One<EndLines>>>,
    >,
>;
