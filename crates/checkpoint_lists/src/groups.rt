//! The groups of lines, each from its items.

use crate::gathered::{Amounts, Books, FrozenRows, Governance, Stakes};
use crate::parts::{AmountsPart, BooksPart, FrozenPart, GovernancePart, StakesPart};
use line_parts::{GroupOf, Part};

impl GroupOf<GovernancePart> for Governance {
    ghost use Rattle.checkpoint_lists.specs.Rows.{governance_items, governance_rows, has_governance_form};

    ghost items = { governance_items };

    ghost rows = { governance_rows };

    ghost form = { has_governance_form };

    fn laws() {}

    fn of(all: <GovernancePart as Part>::Item) -> Self {
        let (head, (now, (constitution, (threshold, (members, (hot, last)))))) = all;
        Governance {
            head,
            now,
            constitution,
            threshold,
            members,
            hot,
            last,
        }
    }
}

impl GroupOf<BooksPart> for Books {
    ghost use Rattle.checkpoint_lists.specs.Rows.{book_items, book_rows, have_book_form};

    ghost items = { book_items };

    ghost rows = { book_rows };

    ghost form = { have_book_form };

    fn laws() {}

    fn of(all: <BooksPart as Part>::Item) -> Self {
        let (dreps, (pools, (entries, (outputs, proposals)))) = all;
        Books {
            dreps,
            pools,
            entries,
            outputs,
            proposals,
        }
    }
}

impl GroupOf<StakesPart> for Stakes {
    ghost use Rattle.checkpoint_lists.specs.Rows.{have_stake_form, stake_items, stake_rows};

    ghost items = { stake_items };

    ghost rows = { stake_rows };

    ghost form = { have_stake_form };

    fn laws() {}

    fn of(all: <StakesPart as Part>::Item) -> Self {
        let (mark, (set, (go, noted_fees))) = all;
        Stakes {
            mark,
            set,
            go,
            noted_fees,
        }
    }
}

impl GroupOf<AmountsPart> for Amounts {
    ghost use Rattle.checkpoint_lists.specs.Rows.{amount_items, amount_rows, have_amount_form};

    ghost items = { amount_items };

    ghost rows = { amount_rows };

    ghost form = { have_amount_form };

    fn laws() {}

    fn of(all: <AmountsPart as Part>::Item) -> Self {
        let (pending, (rewards, (pots, used))) = all;
        Amounts {
            pending,
            rewards,
            pots,
            used,
        }
    }
}

impl GroupOf<FrozenPart> for FrozenRows {
    ghost use Rattle.checkpoint_lists.specs.Rows.{frozen_items, frozen_rows, has_frozen_form};

    ghost items = { frozen_items };

    ghost rows = { frozen_rows };

    ghost form = { has_frozen_form };

    fn laws() {}

    fn of(all: <FrozenPart as Part>::Item) -> Self {
        let ((treasury, entries), ((dreps, hot), (pools, (proposals, _end)))) = all;
        FrozenRows {
            treasury,
            entries,
            dreps,
            hot,
            pools,
            proposals,
        }
    }
}
