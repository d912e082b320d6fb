//! The lines of a snapshot up to its proposals, group by group.

use crate::heads::CertificateLines;
use crate::names::{FrozenDreps, PoolsOfMark};
use crate::rows::{GovernedRows, VoterRows};
use crate::stakes::PoolStakeLines;
use book_kinds::{AccountLines, HotLines};
use checkpoint_lists::of_named_kinds::One;
use checkpoint_reader::ParamsPart;
use line_parts::{As, GroupOf, Many, Part, Then};
use state_kinds::{CommitteeLines, ConstitutionLines, EnactedLines, MemberLines};

/// From the first line to the last enacted ids.
type GovernedPart = Then<
    One<CertificateLines>,
    Then<
        One<ConstitutionLines>,
        Then<
            One<CommitteeLines>,
            Then<Many<One<MemberLines>>, Then<Many<One<HotLines>>, One<EnactedLines>>>,
        >,
    >,
>;

impl GroupOf<GovernedPart> for GovernedRows {
    ghost use Rattle.certificate_lists.specs.Items.{governed_items};
    ghost use Rattle.certificate_lists.specs.Rows.{governed_rows, has_governed_form};

    ghost items = { governed_items };

    ghost rows = { governed_rows };

    ghost form = { has_governed_form };

    fn laws() {}

    fn of(all: <GovernedPart as Part>::Item) -> Self {
        let (head, (constitution, (threshold, (members, (hot, last))))) = all;
        GovernedRows {
            head,
            constitution,
            threshold,
            members,
            hot,
            last,
        }
    }
}

/// Who votes.
type VoterPart = Then<
    Many<One<FrozenDreps>>,
    Then<Many<One<PoolsOfMark>>, Then<Many<One<PoolStakeLines>>, Many<One<AccountLines>>>>,
>;

impl GroupOf<VoterPart> for VoterRows {
    ghost use Rattle.certificate_lists.specs.Items.{voter_items};
    ghost use Rattle.certificate_lists.specs.Rows.{has_voter_form, voter_rows};

    ghost items = { voter_items };

    ghost rows = { voter_rows };

    ghost form = { has_voter_form };

    fn laws() {}

    fn of(all: <VoterPart as Part>::Item) -> Self {
        let (dreps, (pools, (mark, entries))) = all;
        VoterRows {
            dreps,
            pools,
            mark,
            entries,
        }
    }
}

/// All lines up to the proposals.
pub(crate) type FrontPart = Then<
    As<GovernedPart, GovernedRows>,
    Then<ParamsPart, As<VoterPart, VoterRows>>,
>;
