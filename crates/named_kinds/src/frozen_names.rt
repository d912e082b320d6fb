//! With what each line of what is frozen begins.

use crate::one::NamedLines;
use line_kinds::Frozen;
use state_kinds::TreasuryLines;
use state_kinds::of_book_kinds::{
    AccountLines, ExpiryLines, HotLines, PoolAccountLines, ProposalIdLines, VoteLines,
};

impl NamedLines for Frozen<TreasuryLines> {
    ghost use Rattle.std.specs.Prelude.{codes};

    ghost name = { codes "frozen treasury " };

    fn named() {}
}

impl NamedLines for Frozen<AccountLines> {
    ghost use Rattle.std.specs.Prelude.{codes};

    ghost name = { codes "frozen account " };

    fn named() {}
}

impl NamedLines for Frozen<ExpiryLines> {
    ghost use Rattle.std.specs.Prelude.{codes};

    ghost name = { codes "frozen drep " };

    fn named() {}
}

impl NamedLines for Frozen<HotLines> {
    ghost use Rattle.std.specs.Prelude.{codes};

    ghost name = { codes "frozen hot " };

    fn named() {}
}

impl NamedLines for Frozen<PoolAccountLines> {
    ghost use Rattle.std.specs.Prelude.{codes};

    ghost name = { codes "frozen pool " };

    fn named() {}
}

impl NamedLines for Frozen<ProposalIdLines> {
    ghost use Rattle.std.specs.Prelude.{codes};

    ghost name = { codes "frozen proposal " };

    fn named() {}
}

impl NamedLines for Frozen<VoteLines> {
    ghost use Rattle.std.specs.Prelude.{codes};

    ghost name = { codes "frozen vote " };

    fn named() {}
}
