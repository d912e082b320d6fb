//! What becomes of proposals that bear on each other, and of the committee.
use crate::cases::{Case, FOUR_ACCOUNTS, LASTING, QUICK, SHORT, TERM_0, TERM_1, WORKED};
use crate::lines::Line;

/// Proposals that follow others.
pub const CHAINS: [Case; 4] = [
    // Both are dropped; the account to which the sibling returns its deposit left.
    Case {
        name: "a sibling of the enacted one, and what follows it",
        genesis: FOUR_ACCOUNTS,
        epochs: &[
            &[
                Line::Tx(
                    "2",
                    r#","fee":10,"proposals":[{"deposit":10,"return":"1k_12","action":{"type":"NewConstitution","document":"^02"}}]"#,
                ),
                Line::Tx(
                    "3",
                    r#","fee":10,"proposals":[{"deposit":10,"return":"1k_13","action":{"type":"NewConstitution","document":"^03"}}]"#,
                ),
                Line::Tx(
                    "4",
                    r#","fee":10,"proposals":[{"deposit":10,"return":"1k_12","action":{"type":"NewConstitution","previous":"^03#0","document":"^04"}}]"#,
                ),
            ],
            &[Line::Tx(
                "5",
                r#","fee":22,"certs":[{"cert":"account-unreg","cred":"k_13"}]"#,
            )],
        ],
        told: &[
            "epoch 2 frozen 3 dormant 1",
            "stake k_30 67",
            "stake k_31 33",
            "tally ^02#0 NewConstitution committee 0/1 need 0/1 drep 0/100 need 0/1 pool 0/0 need none ratified",
            "tally ^03#0 NewConstitution committee 0/1 need 0/1 drep 0/100 need 0/1 pool 0/0 need none waiting",
            "tally ^04#0 NewConstitution committee 0/1 need 0/1 drep 0/100 need 0/1 pool 0/0 need none waiting",
            "removed ^02#0 enacted refund 10 1k_12",
            "removed ^03#0 dropped refund 10 treasury",
            "removed ^04#0 dropped refund 10 1k_12",
            "pots outputs 120 deposits 21 rewards 120 fees 52 donations 0 treasury 110 reserves 577 supply 1000",
        ],
        parts: [1, 0, 52, 0, 2, 10],
    },
    // It and what follows it are dropped in the very epoch of their submission.
    Case {
        name: "what follows an expired one",
        genesis: SHORT,
        epochs: &[
            &[Line::Tx(
                "2",
                r#","fee":10,"proposals":[{"deposit":10,"return":"1k_12","action":{"type":"NewConstitution","document":"^02"}}]"#,
            )],
            &[
                Line::Tx(
                    "3",
                    r#","fee":10,"proposals":[{"deposit":10,"return":"1k_12","action":{"type":"NewConstitution","previous":"^02#0","document":"^03"}}]"#,
                ),
                Line::Tx(
                    "4",
                    r#","fee":10,"proposals":[{"deposit":10,"return":"1k_12","action":{"type":"NewConstitution","previous":"^03#0","document":"^04"}}]"#,
                ),
            ],
        ],
        told: &[
            "epoch 2 frozen 3 dormant 1",
            "stake k_30 67",
            "stake k_31 33",
            "tally ^02#0 NewConstitution committee 0/1 need 0/1 drep 0/100 need 67/100 pool 0/0 need none expired",
            "removed ^02#0 expired refund 10 1k_12",
            "removed ^03#0 dropped refund 10 1k_12",
            "removed ^04#0 dropped refund 10 1k_12",
            "pots outputs 140 deposits 21 rewards 130 fees 30 donations 0 treasury 100 reserves 579 supply 1000",
        ],
        parts: [1, 0, 30, 0, 1, 10],
    },
    // The other two stay; the next of them is enacted at the next boundary.
    Case {
        name: "the first of a chain of three",
        genesis: LASTING,
        epochs: &[
            &[
                Line::Tx(
                    "2",
                    r#","fee":10,"proposals":[{"deposit":10,"return":"1k_12","action":{"type":"NewConstitution","document":"^02"}}]"#,
                ),
                Line::Tx(
                    "3",
                    r#","fee":10,"proposals":[{"deposit":10,"return":"1k_12","action":{"type":"NewConstitution","previous":"^02#0","document":"^03"}}]"#,
                ),
                Line::Tx(
                    "4",
                    r#","fee":10,"proposals":[{"deposit":10,"return":"1k_12","action":{"type":"NewConstitution","previous":"^03#0","document":"^04"}}]"#,
                ),
            ],
            &[],
        ],
        told: &[
            "epoch 2 frozen 3 dormant 0",
            "stake k_30 67",
            "stake k_31 33",
            "tally ^02#0 NewConstitution committee 0/1 need 0/1 drep 0/100 need 0/1 pool 0/0 need none ratified",
            "tally ^03#0 NewConstitution committee 0/1 need 0/1 drep 0/100 need 0/1 pool 0/0 need none waiting",
            "tally ^04#0 NewConstitution committee 0/1 need 0/1 drep 0/100 need 0/1 pool 0/0 need none waiting",
            "removed ^02#0 enacted refund 10 1k_12",
            "pots outputs 140 deposits 41 rewards 110 fees 30 donations 0 treasury 100 reserves 579 supply 1000",
        ],
        parts: [1, 0, 30, 2, 2, 10],
    },
    // The third stays.
    Case {
        name: "the second of a chain of three",
        genesis: LASTING,
        epochs: &[
            &[
                Line::Tx(
                    "2",
                    r#","fee":10,"proposals":[{"deposit":10,"return":"1k_12","action":{"type":"NewConstitution","document":"^02"}}]"#,
                ),
                Line::Tx(
                    "3",
                    r#","fee":10,"proposals":[{"deposit":10,"return":"1k_12","action":{"type":"NewConstitution","previous":"^02#0","document":"^03"}}]"#,
                ),
                Line::Tx(
                    "4",
                    r#","fee":10,"proposals":[{"deposit":10,"return":"1k_12","action":{"type":"NewConstitution","previous":"^03#0","document":"^04"}}]"#,
                ),
            ],
            &[],
            &[],
        ],
        told: &[
            "epoch 3 frozen 3 dormant 0",
            "stake k_30 67",
            "stake k_31 33",
            "tally ^03#0 NewConstitution committee 0/1 need 0/1 drep 0/100 need 0/1 pool 0/0 need none ratified",
            "tally ^04#0 NewConstitution committee 0/1 need 0/1 drep 0/100 need 0/1 pool 0/0 need none waiting",
            "removed ^03#0 enacted refund 10 1k_12",
            "pots outputs 140 deposits 31 rewards 120 fees 30 donations 0 treasury 100 reserves 579 supply 1000",
        ],
        parts: [1, 0, 30, 1, 3, 10],
    },
];

/// Actions that bear on others of the same pass.
pub const PASSES: [Case; 4] = [
    // It has priority, and nothing is enacted behind it.
    Case {
        name: "a delaying action",
        genesis: LASTING,
        epochs: &[
            &[
                Line::Tx(
                    "2",
                    r#","fee":10,"proposals":[{"deposit":10,"return":"1k_12","action":{"type":"TreasuryWithdrawals","targets":[["1k_12",60]]}}]"#,
                ),
                Line::Tx(
                    "3",
                    r#","fee":10,"proposals":[{"deposit":10,"return":"1k_12","action":{"type":"HardForkInitiation","version":[10,1]}}]"#,
                ),
                Line::Tx(
                    "4",
                    r#","fee":10,"proposals":[{"deposit":10,"return":"1k_12","action":{"type":"NewConstitution","document":"^02"}}]"#,
                ),
            ],
            &[],
        ],
        told: &[
            "epoch 2 frozen 3 dormant 0",
            "stake k_30 67",
            "stake k_31 33",
            "tally ^04#0 NewConstitution committee 0/1 need 0/1 drep 0/100 need 0/1 pool 0/0 need none ratified",
            "tally ^03#0 HardForkInitiation committee 0/1 need 0/1 drep 0/100 need 0/1 pool 0/0 need 0/1 waiting",
            "tally ^02#0 TreasuryWithdrawals committee 0/1 need 0/1 drep 0/100 need 0/1 pool 0/0 need none waiting",
            "removed ^04#0 enacted refund 10 1k_12",
            "pots outputs 140 deposits 41 rewards 110 fees 30 donations 0 treasury 100 reserves 579 supply 1000",
        ],
        parts: [1, 0, 30, 2, 2, 10],
    },
    // The hard fork delays too, and the withdrawal waits for a third time.
    Case {
        name: "the next pass",
        genesis: LASTING,
        epochs: &[
            &[
                Line::Tx(
                    "2",
                    r#","fee":10,"proposals":[{"deposit":10,"return":"1k_12","action":{"type":"TreasuryWithdrawals","targets":[["1k_12",60]]}}]"#,
                ),
                Line::Tx(
                    "3",
                    r#","fee":10,"proposals":[{"deposit":10,"return":"1k_12","action":{"type":"HardForkInitiation","version":[10,1]}}]"#,
                ),
                Line::Tx(
                    "4",
                    r#","fee":10,"proposals":[{"deposit":10,"return":"1k_12","action":{"type":"NewConstitution","document":"^02"}}]"#,
                ),
            ],
            &[],
            &[],
        ],
        told: &[
            "epoch 3 frozen 3 dormant 0",
            "stake k_30 67",
            "stake k_31 33",
            "tally ^03#0 HardForkInitiation committee 0/1 need 0/1 drep 0/100 need 0/1 pool 0/0 need 0/1 ratified",
            "tally ^02#0 TreasuryWithdrawals committee 0/1 need 0/1 drep 0/100 need 0/1 pool 0/0 need none waiting",
            "removed ^03#0 enacted refund 10 1k_12",
            "pots outputs 140 deposits 31 rewards 120 fees 30 donations 0 treasury 100 reserves 579 supply 1000",
        ],
        parts: [1, 0, 30, 1, 2, 10],
    },
    // The last number is the version.
    Case {
        name: "version 11.0",
        genesis: QUICK,
        epochs: &[
            &[Line::Tx(
                "2",
                r#","fee":10,"proposals":[{"deposit":10,"return":"1k_12","action":{"type":"HardForkInitiation","version":[11,0]}}]"#,
            )],
            &[],
        ],
        told: &[
            "epoch 2 frozen 3 dormant 1",
            "stake k_30 67",
            "stake k_31 33",
            "tally ^02#0 HardForkInitiation committee 0/1 need 0/1 drep 0/100 need 0/1 pool 0/0 need 0/1 ratified",
            "removed ^02#0 enacted refund 10 1k_12",
            "pots outputs 180 deposits 21 rewards 110 fees 10 donations 0 treasury 100 reserves 579 supply 1000",
        ],
        parts: [1, 0, 10, 0, 1, 11],
    },
    // The withdrawal needs 1 of 100 by the parameters that are enacted before it.
    Case {
        name: "other thresholds",
        genesis: WORKED,
        epochs: &[
            &[
                Line::Tx(
                    "2",
                    r#","fee":10,"proposals":[{"deposit":10,"return":"1k_12","action":{"type":"ParameterChange","update":{"drepVotingThresholds":[[67,100],[67,100],[67,100],[67,100],[67,100],[67,100],[67,100],[67,100],[67,100],[1,100]]}}}]"#,
                ),
                Line::Tx(
                    "3",
                    r#","fee":10,"proposals":[{"deposit":10,"return":"1k_12","action":{"type":"TreasuryWithdrawals","targets":[["1k_12",60]]}}]"#,
                ),
                Line::Tx(
                    "4",
                    r#","votes":[{"voter":"drep:k_30","action":"^02#0","vote":"yes"},{"voter":"drep:k_31","action":"^03#0","vote":"yes"}]"#,
                ),
            ],
            &[],
        ],
        told: &[
            "epoch 2 frozen 3 dormant 1",
            "stake k_30 67",
            "stake k_31 33",
            "tally ^02#0 ParameterChange committee 0/1 need 0/1 drep 67/100 need 67/100 pool 0/0 need none ratified",
            "tally ^03#0 TreasuryWithdrawals committee 0/1 need 0/1 drep 33/100 need 1/100 pool 0/0 need none ratified",
            "paid 1k_12 60",
            "removed ^02#0 enacted refund 10 1k_12",
            "removed ^03#0 enacted refund 10 1k_12",
            "pots outputs 140 deposits 21 rewards 180 fees 40 donations 0 treasury 40 reserves 579 supply 1000",
        ],
        parts: [1, 0, 40, 0, 1, 10],
    },
];

/// Members whose terms end, and who leave.
pub const COMMITTEES: [Case; 4] = [
    // The member counts, and is enough.
    Case {
        name: "a term that ends with the epoch",
        genesis: TERM_1,
        epochs: &[
            &[
                Line::Tx(
                    "2",
                    r#","fee":10,"proposals":[{"deposit":10,"return":"1k_12","action":{"type":"NewConstitution","document":"^02"}}]"#,
                ),
                Line::Tx(
                    "3",
                    r#","votes":[{"voter":"committee:k_71","action":"^02#0","vote":"yes"}]"#,
                ),
            ],
            &[],
        ],
        told: &[
            "epoch 2 frozen 3 dormant 1",
            "stake k_30 67",
            "stake k_31 33",
            "tally ^02#0 NewConstitution committee 1/1 need 1/2 drep 0/100 need 0/1 pool 0/0 need none ratified",
            "removed ^02#0 enacted refund 10 1k_12",
            "pots outputs 160 deposits 21 rewards 110 fees 30 donations 0 treasury 100 reserves 579 supply 1000",
        ],
        parts: [1, 0, 30, 0, 2, 10],
    },
    // The member does not count, and no other is there.
    Case {
        name: "a term that ended before the epoch",
        genesis: TERM_0,
        epochs: &[
            &[
                Line::Tx(
                    "2",
                    r#","fee":10,"proposals":[{"deposit":10,"return":"1k_12","action":{"type":"NewConstitution","document":"^02"}}]"#,
                ),
                Line::Tx(
                    "3",
                    r#","votes":[{"voter":"committee:k_71","action":"^02#0","vote":"yes"}]"#,
                ),
            ],
            &[],
        ],
        told: &[
            "epoch 2 frozen 3 dormant 0",
            "stake k_30 67",
            "stake k_31 33",
            "tally ^02#0 NewConstitution committee 0/0 need never drep 0/100 need 0/1 pool 0/0 need none waiting",
            "pots outputs 160 deposits 31 rewards 100 fees 30 donations 0 treasury 100 reserves 579 supply 1000",
        ],
        parts: [1, 0, 30, 1, 1, 10],
    },
    // Its hot key leaves with it.
    Case {
        name: "a member leaves",
        genesis: QUICK,
        epochs: &[
            &[Line::Tx(
                "2",
                r#","fee":10,"proposals":[{"deposit":10,"return":"1k_12","action":{"type":"UpdateCommittee","remove":["k_70"],"add":[],"threshold":[0,1]}}]"#,
            )],
            &[],
        ],
        told: &[
            "epoch 2 frozen 3 dormant 1",
            "stake k_30 67",
            "stake k_31 33",
            "tally ^02#0 UpdateCommittee committee 0/1 need none drep 0/100 need 0/1 pool 0/0 need 0/1 ratified",
            "removed ^02#0 enacted refund 10 1k_12",
            "pots outputs 180 deposits 21 rewards 110 fees 10 donations 0 treasury 100 reserves 579 supply 1000",
        ],
        parts: [0, 0, 10, 0, 1, 10],
    },
    // It has no hot key.
    Case {
        name: "a member comes back",
        genesis: QUICK,
        epochs: &[
            &[Line::Tx(
                "2",
                r#","fee":10,"proposals":[{"deposit":10,"return":"1k_12","action":{"type":"UpdateCommittee","remove":["k_70"],"add":[],"threshold":[0,1]}}]"#,
            )],
            &[],
            &[Line::Tx(
                "3",
                r#","fee":10,"proposals":[{"deposit":10,"return":"1k_12","action":{"type":"UpdateCommittee","previous":"^02#0","remove":[],"add":[["k_70",50]],"threshold":[0,1]}}]"#,
            )],
            &[],
        ],
        told: &[
            "epoch 4 frozen 3 dormant 1",
            "stake k_30 67",
            "stake k_31 33",
            "tally ^03#0 UpdateCommittee committee 0/0 need none drep 0/100 need 0/1 pool 0/0 need 0/1 ratified",
            "removed ^03#0 enacted refund 10 1k_12",
            "pots outputs 160 deposits 21 rewards 120 fees 20 donations 0 treasury 100 reserves 579 supply 1000",
        ],
        parts: [0, 0, 20, 0, 1, 10],
    },
];
