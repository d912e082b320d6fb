//! What frozen proposals lack of the DReps' need: a table.
use crate::cases::{NO_VOTES, WORKED};
use crate::lines::Line;

/// Lines in each of some epochs, and what the proposals that the last boundary freezes lack.
pub struct Lack {
    /// What is tried.
    pub name: &'static str,
    /// The genesis.
    pub genesis: Line,
    /// The lines of each epoch, behind which its boundary is.
    pub epochs: &'static [&'static [Line]],
    /// The lines after the last boundary.
    pub later: &'static [Line],
    /// The lines of each proposal, in order of submission, without the number of a line.
    pub told: &'static [&'static [&'static str]],
    /// The places of the proposals in order of priority.
    pub order: &'static [usize],
}

/// The first DRep has 66 and the second 34.
const OF_66: Line = Line::Genesis(
    "",
    "",
    r#","accounts":[["k_10",2,66,null,"k_30"],["k_11",2,34,null,"k_31"],["k_12",2,0,null,null]]"#,
);

/// Both DReps have 50.
const OF_50: Line = Line::Genesis(
    "",
    "",
    r#","accounts":[["k_10",2,50,null,"k_31"],["k_11",2,50,null,"k_30"],["k_12",2,0,null,null]]"#,
);

/// Half of the stake is enough.
const HALF: &str =
    r#","drepVotingThresholds":[[1,2],[1,2],[1,2],[1,2],[1,2],[1,2],[1,2],[1,2],[1,2],[1,2]]"#;

/// All of it is needed.
const ALL: &str =
    r#","drepVotingThresholds":[[1,1],[1,1],[1,1],[1,1],[1,1],[1,1],[1,1],[1,1],[1,1],[1,1]]"#;

/// A motion of no confidence.
pub const MOTION: Line = Line::Tx(
    "2",
    r#","fee":10,"proposals":[{"deposit":10,"return":"1k_12","action":{"type":"NoConfidence"}}]"#,
);

/// The vote of the DReps 30 and 31 on it.
const FIRST_YES: Line = Line::Tx(
    "3",
    r#","votes":[{"voter":"drep:k_30","action":"^02#0","vote":"yes"}]"#,
);

const SECOND_NO: Line = Line::Tx(
    "4",
    r#","votes":[{"voter":"drep:k_31","action":"^02#0","vote":"no"}]"#,
);

const SECOND_ABSTAINS: Line = Line::Tx(
    "4",
    r#","votes":[{"voter":"drep:k_31","action":"^02#0","vote":"abstain"}]"#,
);

/// All cases.
pub const LACKS: [Lack; 17] = [
    Lack {
        name: "one DRep reaches just what is needed",
        genesis: WORKED,
        epochs: &[&[MOTION]],
        later: &[],
        told: &[&[
            "shortfall ^02#0 least 1 yes 0 of 100 need 67/100 short 0",
            "add k_30 67",
        ]],
        order: &[0],
    },
    Lack {
        name: "one lacks one lovelace of it",
        genesis: OF_66,
        epochs: &[&[MOTION]],
        later: &[],
        told: &[&[
            "shortfall ^02#0 least 2 yes 0 of 100 need 67/100 short 66",
            "add k_30 66",
            "add k_31 34",
        ]],
        order: &[0],
    },
    Lack {
        name: "who is left does not reach it",
        genesis: OF_66,
        epochs: &[&[MOTION, SECOND_NO]],
        later: &[],
        told: &[&["shortfall ^02#0 none yes 0 of 100 need 67/100"]],
        order: &[0],
    },
    Lack {
        name: "no proposal",
        genesis: WORKED,
        epochs: &[&[]],
        later: &[],
        told: &[],
        order: &[],
    },
    // It came after the boundary, so it is not frozen.
    Lack {
        name: "a proposal of the present epoch",
        genesis: WORKED,
        epochs: &[&[]],
        later: &[MOTION],
        told: &[],
        order: &[],
    },
    // It came after the boundary, so it does not count.
    Lack {
        name: "a vote of the present epoch",
        genesis: WORKED,
        epochs: &[&[MOTION]],
        later: &[FIRST_YES],
        told: &[&[
            "shortfall ^02#0 least 1 yes 0 of 100 need 67/100 short 0",
            "add k_30 67",
        ]],
        order: &[0],
    },
    Lack {
        name: "the votes that are there reach just what is needed",
        genesis: WORKED,
        epochs: &[&[MOTION, FIRST_YES]],
        later: &[],
        told: &[&["shortfall ^02#0 least 0 yes 67 of 100 need 67/100"]],
        order: &[0],
    },
    Lack {
        name: "a threshold of nothing",
        genesis: Line::Genesis(NO_VOTES, "", ""),
        epochs: &[&[MOTION]],
        later: &[],
        told: &[&["shortfall ^02#0 least 0 yes 0 of 100 need 0/1"]],
        order: &[0],
    },
    Lack {
        name: "a threshold of nothing, and all said no",
        genesis: Line::Genesis(NO_VOTES, "", ""),
        epochs: &[&[MOTION, SECOND_NO]],
        later: &[],
        told: &[&["shortfall ^02#0 least 0 yes 0 of 100 need 0/1"]],
        order: &[0],
    },
    Lack {
        name: "all is needed, and one said yes",
        genesis: Line::Genesis(ALL, "", ""),
        epochs: &[&[MOTION, FIRST_YES]],
        later: &[],
        told: &[&[
            "shortfall ^02#0 least 1 yes 67 of 100 need 1/1 short 67",
            "add k_31 33",
        ]],
        order: &[0],
    },
    // Half is just reached by one of them; the lower credential is taken first.
    Lack {
        name: "equal stakes, and half is needed",
        genesis: Line::Genesis(
            HALF,
            "",
            r#","accounts":[["k_10",2,50,null,"k_31"],["k_11",2,50,null,"k_30"],["k_12",2,0,null,null]]"#,
        ),
        epochs: &[&[MOTION]],
        later: &[],
        told: &[&[
            "shortfall ^02#0 least 1 yes 0 of 100 need 1/2 short 0",
            "add k_30 50",
        ]],
        order: &[0],
    },
    Lack {
        name: "equal stakes, and both are needed",
        genesis: OF_50,
        epochs: &[&[MOTION]],
        later: &[],
        told: &[&[
            "shortfall ^02#0 least 2 yes 0 of 100 need 67/100 short 50",
            "add k_30 50",
            "add k_31 50",
        ]],
        order: &[0],
    },
    Lack {
        name: "who abstains leaves the total",
        genesis: OF_66,
        epochs: &[&[MOTION, SECOND_ABSTAINS]],
        later: &[],
        told: &[&[
            "shortfall ^02#0 least 1 yes 0 of 66 need 67/100 short 0",
            "add k_30 66",
        ]],
        order: &[0],
    },
    // The DRep 30 was active until epoch 0: it is asked for nothing and is not in the total.
    Lack {
        name: "a DRep that expired",
        genesis: Line::Genesis("", "", r#","dreps":[["k_30",5,0],["k_31",5,20]]"#),
        epochs: &[&[MOTION]],
        later: &[],
        told: &[&[
            "shortfall ^02#0 least 1 yes 0 of 33 need 67/100 short 0",
            "add k_31 33",
        ]],
        order: &[0],
    },
    // The account of 33 has delegated to no confidence, which says yes to this action alone.
    Lack {
        name: "no confidence says yes",
        genesis: Line::Genesis(
            "",
            "",
            r#","accounts":[["k_10",2,67,null,"k_30"],["k_11",2,33,null,"no-confidence"],["k_12",2,0,null,null]]"#,
        ),
        epochs: &[&[MOTION]],
        later: &[],
        told: &[&[
            "shortfall ^02#0 least 1 yes 33 of 100 need 67/100 short 33",
            "add k_30 67",
        ]],
        order: &[0],
    },
    // No account delegates: the total is 0, and the Yes of DReps without stake reaches nothing.
    Lack {
        name: "a total of nothing",
        genesis: Line::Genesis(
            "",
            "",
            r#","accounts":[["k_10",2,67,null,null],["k_11",2,33,null,null],["k_12",2,0,null,null]]"#,
        ),
        epochs: &[&[MOTION]],
        later: &[],
        told: &[&["shortfall ^02#0 none yes 0 of 0 need 67/100"]],
        order: &[0],
    },
    // Withdrawals, an info, a constitution and a motion: the motion is first, the info the last.
    Lack {
        name: "an order of priority that is not that of submission",
        genesis: WORKED,
        epochs: &[&[
            Line::Tx(
                "2",
                r#","fee":0,"proposals":[{"deposit":10,"return":"1k_12","action":{"type":"TreasuryWithdrawals","targets":[["1k_12",60]]}},{"deposit":10,"return":"1k_12","action":{"type":"Info"}}]"#,
            ),
            Line::Tx(
                "3",
                r#","fee":0,"proposals":[{"deposit":10,"return":"1k_12","action":{"type":"NewConstitution","document":"^02"}},{"deposit":10,"return":"1k_12","action":{"type":"NoConfidence"}}]"#,
            ),
            Line::Tx(
                "4",
                r#","votes":[{"voter":"drep:k_30","action":"^03#1","vote":"no"},{"voter":"drep:k_31","action":"^02#0","vote":"yes"}]"#,
            ),
        ]],
        later: &[],
        told: &[
            &[
                "shortfall ^02#0 least 1 yes 33 of 100 need 67/100 short 33",
                "add k_30 67",
            ],
            &["shortfall ^02#1 never"],
            &[
                "shortfall ^03#0 least 1 yes 0 of 100 need 67/100 short 0",
                "add k_30 67",
            ],
            &["shortfall ^03#1 none yes 0 of 100 need 67/100"],
        ],
        order: &[3, 2, 0, 1],
    },
];
