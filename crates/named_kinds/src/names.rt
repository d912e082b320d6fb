//! With what each line of a state begins.

use crate::one::NamedLines;
use state_kinds::of_book_kinds::{
    AccountLines, AssetLines, DrepLines, GoLines, HotLines, MarkLines, NextLines, OutputLines,
    PoolLines, RewardLines, SetLines, UsedLines, VoteLines,
};
use state_kinds::{
    CommitteeLines, ConstitutionLines, EnactedLines, EndLines, HeadLines, MemberLines,
    NotedFeesLines, NowLines, ProposalLines,
};

impl NamedLines for HeadLines {
    ghost use Rattle.std.specs.Prelude.{codes};

    ghost name = { codes "checkpoint " };

    fn named() {}
}

impl NamedLines for NowLines {
    ghost use Rattle.std.specs.Prelude.{codes};

    ghost name = { codes "now " };

    fn named() {}
}

impl NamedLines for ConstitutionLines {
    ghost use Rattle.std.specs.Prelude.{codes};

    ghost name = { codes "constitution " };

    fn named() {}
}

impl NamedLines for CommitteeLines {
    ghost use Rattle.std.specs.Prelude.{codes};

    ghost name = { codes "committee " };

    fn named() {}
}

impl NamedLines for MemberLines {
    ghost use Rattle.std.specs.Prelude.{codes};

    ghost name = { codes "member " };

    fn named() {}
}

impl NamedLines for HotLines {
    ghost use Rattle.std.specs.Prelude.{codes};

    ghost name = { codes "hot " };

    fn named() {}
}

impl NamedLines for EnactedLines {
    ghost use Rattle.std.specs.Prelude.{codes};

    ghost name = { codes "enacted " };

    fn named() {}
}

impl NamedLines for DrepLines {
    ghost use Rattle.std.specs.Prelude.{codes};

    ghost name = { codes "drep " };

    fn named() {}
}

impl NamedLines for PoolLines {
    ghost use Rattle.std.specs.Prelude.{codes};

    ghost name = { codes "pool " };

    fn named() {}
}

impl NamedLines for NextLines {
    ghost use Rattle.std.specs.Prelude.{codes};

    ghost name = { codes "next " };

    fn named() {}
}

impl NamedLines for AccountLines {
    ghost use Rattle.std.specs.Prelude.{codes};

    ghost name = { codes "account " };

    fn named() {}
}

impl NamedLines for OutputLines {
    ghost use Rattle.std.specs.Prelude.{codes};

    ghost name = { codes "output " };

    fn named() {}
}

impl NamedLines for AssetLines {
    ghost use Rattle.std.specs.Prelude.{codes};

    ghost name = { codes "asset " };

    fn named() {}
}

impl NamedLines for ProposalLines {
    ghost use Rattle.std.specs.Prelude.{codes};

    ghost name = { codes "proposal " };

    fn named() {}
}

impl NamedLines for VoteLines {
    ghost use Rattle.std.specs.Prelude.{codes};

    ghost name = { codes "vote " };

    fn named() {}
}

impl NamedLines for MarkLines {
    ghost use Rattle.std.specs.Prelude.{codes};

    ghost name = { codes "snapshot mark " };

    fn named() {}
}

impl NamedLines for SetLines {
    ghost use Rattle.std.specs.Prelude.{codes};

    ghost name = { codes "snapshot set " };

    fn named() {}
}

impl NamedLines for GoLines {
    ghost use Rattle.std.specs.Prelude.{codes};

    ghost name = { codes "snapshot go " };

    fn named() {}
}

impl NamedLines for NotedFeesLines {
    ghost use Rattle.std.specs.Prelude.{codes};

    ghost name = { codes "snapshot fees " };

    fn named() {}
}

impl NamedLines for RewardLines {
    ghost use Rattle.std.specs.Prelude.{codes};

    ghost name = { codes "pending reward " };

    fn named() {}
}

impl NamedLines for UsedLines {
    ghost use Rattle.std.specs.Prelude.{codes};

    ghost name = { codes "used " };

    fn named() {}
}

impl NamedLines for EndLines {
    ghost use Rattle.std.specs.Prelude.{codes};

    ghost name = { codes "end" };

    fn named() {}
}
