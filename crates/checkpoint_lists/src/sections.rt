//! Each group of lines as a part, whose items other crates need not see.

use crate::gathered::{Amounts, Books, FrozenRows, Governance, Stakes};
use crate::parts::{AmountsPart, BooksPart, FrozenPart, GovernancePart, StakesPart};
use byte_lines::LineFault;
use line_giver::LineGiver;
use line_parts::{As, Part};
use std::alloc::Global;

/// From the first line to the last enacted ids. (Own)
pub struct GovernanceLines;

impl Part for GovernanceLines {
    type Item = Governance;

    ghost use Rattle.checkpoint_lists.specs.Rows.{governance_rows, has_governance_form};
    ghost use Rattle.checkpoint_lists.specs.Sections.{governance_shape};

    ghost words = { governance_rows };

    ghost form = { has_governance_form };

    ghost shape = { governance_shape };

    fn laws() {
        <As<GovernancePart, Governance> as Part>::laws();
    }

    fn read_part<G: LineGiver>(
        alloc: Global,
        giver: &mut G,
        text: &mut Vec<u8>,
    ) -> Result<Option<Governance>, LineFault> {
        <As<GovernancePart, Governance> as Part>::read_part::<G>(alloc, giver, text)
    }
}

/// The lines of the books. (Own)
pub struct BookLines;

impl Part for BookLines {
    type Item = Books;

    ghost use Rattle.checkpoint_lists.specs.Rows.{book_rows, have_book_form};
    ghost use Rattle.checkpoint_lists.specs.Sections.{book_shape};

    ghost words = { book_rows };

    ghost form = { have_book_form };

    ghost shape = { book_shape };

    fn laws() {
        <As<BooksPart, Books> as Part>::laws();
    }

    fn read_part<G: LineGiver>(
        alloc: Global,
        giver: &mut G,
        text: &mut Vec<u8>,
    ) -> Result<Option<Books>, LineFault> {
        <As<BooksPart, Books> as Part>::read_part::<G>(alloc, giver, text)
    }
}

/// The lines of the stakes of pools and of the noted fees. (Own)
pub struct StakeLines;

impl Part for StakeLines {
    type Item = Stakes;

    ghost use Rattle.checkpoint_lists.specs.Rows.{have_stake_form, stake_rows};
    ghost use Rattle.checkpoint_lists.specs.Sections.{stake_shape};

    ghost words = { stake_rows };

    ghost form = { have_stake_form };

    ghost shape = { stake_shape };

    fn laws() {
        <As<StakesPart, Stakes> as Part>::laws();
    }

    fn read_part<G: LineGiver>(
        alloc: Global,
        giver: &mut G,
        text: &mut Vec<u8>,
    ) -> Result<Option<Stakes>, LineFault> {
        <As<StakesPart, Stakes> as Part>::read_part::<G>(alloc, giver, text)
    }
}

/// The lines of what is pending, of the pots, and of used ids. (Own)
pub struct AmountLines;

impl Part for AmountLines {
    type Item = Amounts;

    ghost use Rattle.checkpoint_lists.specs.Rows.{amount_rows, have_amount_form};
    ghost use Rattle.checkpoint_lists.specs.Sections.{amount_shape};

    ghost words = { amount_rows };

    ghost form = { have_amount_form };

    ghost shape = { amount_shape };

    fn laws() {
        <As<AmountsPart, Amounts> as Part>::laws();
    }

    fn read_part<G: LineGiver>(
        alloc: Global,
        giver: &mut G,
        text: &mut Vec<u8>,
    ) -> Result<Option<Amounts>, LineFault> {
        <As<AmountsPart, Amounts> as Part>::read_part::<G>(alloc, giver, text)
    }
}

/// The lines of what is frozen, and the end. (Own)
pub struct FrozenLines;

impl Part for FrozenLines {
    type Item = FrozenRows;

    ghost use Rattle.checkpoint_lists.specs.Rows.{frozen_rows, has_frozen_form};
    ghost use Rattle.checkpoint_lists.specs.Sections.{frozen_shape};

    ghost words = { frozen_rows };

    ghost form = { has_frozen_form };

    ghost shape = { frozen_shape };

    fn laws() {
        <As<FrozenPart, FrozenRows> as Part>::laws();
    }

    fn read_part<G: LineGiver>(
        alloc: Global,
        giver: &mut G,
        text: &mut Vec<u8>,
    ) -> Result<Option<FrozenRows>, LineFault> {
        <As<FrozenPart, FrozenRows> as Part>::read_part::<G>(alloc, giver, text)
    }
}
