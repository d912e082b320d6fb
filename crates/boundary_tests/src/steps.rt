//! The steps of a boundary, one at a time, and what they pay.
use crate::cases::{Case, LASTING, QUICK, TWO_POOLS};
use crate::lines::Line;

/// What each step does alone, where the others have nothing to do but to note fees and freeze.
pub const STEPS: [Case; 11] = [
    // No proposal is left, so the epoch is dormant.
    Case {
        name: "nothing",
        genesis: QUICK,
        epochs: &[&[]],
        told: &[
            "epoch 1 frozen 3 dormant 1",
            "stake k_30 67",
            "stake k_31 33",
            "pots outputs 200 deposits 21 rewards 100 fees 0 donations 0 treasury 100 reserves 579 supply 1000",
        ],
        parts: [1, 0, 0, 0, 1, 10],
    },
    // Of 7 from the reserves 2 go to the treasury and 3 + 2 to accounts.
    Case {
        name: "an update",
        genesis: QUICK,
        epochs: &[&[Line::Record(
            r#"{"kind":"rewards","epoch":0,"fromReserves":7,"fromFees":0,"toTreasury":2,"rewards":[["k_12",3],["k_10",2]]}"#,
        )]],
        told: &[
            "epoch 1 frozen 3 dormant 1",
            "stake k_30 67",
            "stake k_31 33",
            "pots outputs 200 deposits 21 rewards 105 fees 0 donations 0 treasury 102 reserves 572 supply 1000",
        ],
        parts: [1, 0, 0, 0, 1, 10],
    },
    // The 67 of the account that delegates to the pool are marked, and the fees of 20 noted.
    Case {
        name: "the marks turn",
        genesis: QUICK,
        epochs: &[&[Line::Tx(
            "2",
            r#","certs":[{"cert":"delegate","cred":"k_10","pool":"_50"}]"#,
        )]],
        told: &[
            "epoch 1 frozen 3 dormant 1",
            "stake k_30 67",
            "stake k_31 33",
            "pots outputs 180 deposits 21 rewards 100 fees 20 donations 0 treasury 100 reserves 579 supply 1000",
        ],
        parts: [1, 67, 20, 0, 1, 10],
    },
    // Its deposit of 5 goes to its reward account; it is marked before it leaves.
    Case {
        name: "a pool is reaped",
        genesis: QUICK,
        epochs: &[&[Line::Tx(
            "2",
            r#","certs":[{"cert":"delegate","cred":"k_10","pool":"_50"},{"cert":"pool-retire","pool":"_50","epoch":1}]"#,
        )]],
        told: &[
            "epoch 1 frozen 3 dormant 1",
            "stake k_30 67",
            "stake k_31 33",
            "retired _50 refund 5 1k_12",
            "pots outputs 180 deposits 16 rewards 105 fees 20 donations 0 treasury 100 reserves 579 supply 1000",
        ],
        parts: [1, 67, 20, 0, 1, 10],
    },
    // No vote is needed. The document is another one, and the deposit of 10 goes back.
    Case {
        name: "a constitution is enacted",
        genesis: QUICK,
        epochs: &[
            &[Line::Tx(
                "2",
                r#","fee":10,"proposals":[{"deposit":10,"return":"1k_12","action":{"type":"NewConstitution","document":"^02"}}]"#,
            )],
            &[],
        ],
        told: &[
            "epoch 2 frozen 3 dormant 1",
            "stake k_30 67",
            "stake k_31 33",
            "tally ^02#0 NewConstitution committee 0/1 need 0/1 drep 0/100 need 0/1 pool 0/0 need none ratified",
            "removed ^02#0 enacted refund 10 1k_12",
            "pots outputs 180 deposits 21 rewards 110 fees 10 donations 0 treasury 100 reserves 579 supply 1000",
        ],
        parts: [1, 0, 10, 0, 2, 10],
    },
    // 30 go from the treasury to an account, beside the deposit.
    Case {
        name: "a withdrawal is paid",
        genesis: QUICK,
        epochs: &[
            &[Line::Tx(
                "2",
                r#","fee":10,"proposals":[{"deposit":10,"return":"1k_12","action":{"type":"TreasuryWithdrawals","targets":[["1k_10",30]]}}]"#,
            )],
            &[],
        ],
        told: &[
            "epoch 2 frozen 3 dormant 1",
            "stake k_30 67",
            "stake k_31 33",
            "tally ^02#0 TreasuryWithdrawals committee 0/1 need 0/1 drep 0/100 need 0/1 pool 0/0 need none ratified",
            "paid 1k_10 30",
            "removed ^02#0 enacted refund 10 1k_12",
            "pots outputs 180 deposits 21 rewards 140 fees 10 donations 0 treasury 70 reserves 579 supply 1000",
        ],
        parts: [1, 0, 10, 0, 1, 10],
    },
    // It is past its last epoch and in the list, so the epoch is not dormant.
    Case {
        name: "a proposal is left",
        genesis: QUICK,
        epochs: &[&[Line::Tx(
            "2",
            r#","fee":10,"proposals":[{"deposit":10,"return":"1k_12","action":{"type":"Info"}}]"#,
        )]],
        told: &[
            "epoch 1 frozen 3 dormant 0",
            "stake k_30 67",
            "stake k_31 33",
            "pots outputs 180 deposits 31 rewards 100 fees 10 donations 0 treasury 100 reserves 579 supply 1000",
        ],
        parts: [1, 0, 10, 1, 1, 10],
    },
    // Its deposit goes back, and the epoch is dormant.
    Case {
        name: "a proposal expires",
        genesis: QUICK,
        epochs: &[
            &[Line::Tx(
                "2",
                r#","fee":10,"proposals":[{"deposit":10,"return":"1k_12","action":{"type":"Info"}}]"#,
            )],
            &[],
        ],
        told: &[
            "epoch 2 frozen 3 dormant 1",
            "stake k_30 67",
            "stake k_31 33",
            "tally ^02#0 Info committee 0/1 need never drep 0/100 need never pool 0/0 need never expired",
            "removed ^02#0 expired refund 10 1k_12",
            "pots outputs 180 deposits 21 rewards 110 fees 10 donations 0 treasury 100 reserves 579 supply 1000",
        ],
        parts: [1, 0, 10, 0, 1, 10],
    },
    // 15 go from the donations to the treasury.
    Case {
        name: "a donation joins",
        genesis: QUICK,
        epochs: &[&[Line::Tx("2", r#","fee":5,"donation":15"#)]],
        told: &[
            "epoch 1 frozen 3 dormant 1",
            "stake k_30 67",
            "stake k_31 33",
            "pots outputs 180 deposits 21 rewards 100 fees 5 donations 0 treasury 115 reserves 579 supply 1000",
        ],
        parts: [1, 0, 5, 0, 1, 10],
    },
    // A key that is to be a member authorizes before it is one. The proposal is left.
    Case {
        name: "a hot key of no member is dropped",
        genesis: QUICK,
        epochs: &[&[
            Line::Tx(
                "2",
                r#","fee":10,"proposals":[{"deposit":10,"return":"1k_12","action":{"type":"UpdateCommittee","remove":[],"add":[["k_60",50]],"threshold":[0,1]}}]"#,
            ),
            Line::Tx(
                "3",
                r#","certs":[{"cert":"hot-auth","cold":"k_60","hot":"k_61"}]"#,
            ),
        ]],
        told: &[
            "epoch 1 frozen 3 dormant 0",
            "stake k_30 67",
            "stake k_31 33",
            "pots outputs 160 deposits 31 rewards 100 fees 30 donations 0 treasury 100 reserves 579 supply 1000",
        ],
        parts: [1, 0, 30, 1, 1, 10],
    },
    // A fourth one came.
    Case {
        name: "an account is frozen",
        genesis: QUICK,
        epochs: &[&[Line::Tx(
            "2",
            r#","fee":18,"certs":[{"cert":"account-reg","cred":"k_13"}]"#,
        )]],
        told: &[
            "epoch 1 frozen 4 dormant 1",
            "stake k_30 67",
            "stake k_31 33",
            "pots outputs 180 deposits 23 rewards 100 fees 18 donations 0 treasury 100 reserves 579 supply 1000",
        ],
        parts: [1, 0, 18, 0, 1, 10],
    },
];

/// Rewards and pools.
pub const POOLS: [Case; 5] = [
    // One left for good, so its 3 go to the treasury; one came again, and has its 2.
    Case {
        name: "rewards to accounts that left",
        genesis: QUICK,
        epochs: &[&[
            Line::Record(
                r#"{"kind":"rewards","epoch":0,"fromReserves":7,"fromFees":0,"toTreasury":2,"rewards":[["k_12",3],["k_11",2]]}"#,
            ),
            Line::Tx(
                "2",
                r#","outputs":[["1k_01",35,0]],"fee":22,"withdrawals":[["1k_11",33]],"certs":[{"cert":"account-unreg","cred":"k_12"},{"cert":"account-unreg","cred":"k_11"}]"#,
            ),
            Line::Tx(
                "3",
                r#","fee":18,"certs":[{"cert":"account-reg","cred":"k_11"}]"#,
            ),
        ]],
        told: &[
            "epoch 1 frozen 2 dormant 1",
            "stake k_30 67",
            "stake k_31 33",
            "pots outputs 195 deposits 19 rewards 69 fees 40 donations 0 treasury 105 reserves 572 supply 1000",
        ],
        parts: [1, 0, 40, 0, 1, 10],
    },
    // Its deposit goes to the treasury.
    Case {
        name: "a pool is reaped whose reward account left",
        genesis: QUICK,
        epochs: &[&[Line::Tx(
            "2",
            r#","fee":22,"certs":[{"cert":"pool-retire","pool":"_50","epoch":1},{"cert":"account-unreg","cred":"k_12"}]"#,
        )]],
        told: &[
            "epoch 1 frozen 2 dormant 1",
            "stake k_30 67",
            "stake k_31 33",
            "retired _50 refund 5 treasury",
            "pots outputs 180 deposits 14 rewards 100 fees 22 donations 0 treasury 105 reserves 579 supply 1000",
        ],
        parts: [1, 0, 22, 0, 1, 10],
    },
    // They take effect first, so its deposit goes to the reward account that they name.
    Case {
        name: "a pool is reaped that has future terms",
        genesis: QUICK,
        epochs: &[&[Line::Tx(
            "2",
            r#","certs":[{"cert":"pool-reg","pool":"_50","cost":0,"pledge":0,"margin":[0,1],"account":"1k_11"},{"cert":"pool-retire","pool":"_50","epoch":1}]"#,
        )]],
        told: &[
            "epoch 1 frozen 3 dormant 1",
            "stake k_30 67",
            "stake k_31 33",
            "retired _50 refund 5 1k_11",
            "pots outputs 180 deposits 16 rewards 105 fees 20 donations 0 treasury 100 reserves 579 supply 1000",
        ],
        parts: [1, 0, 20, 0, 1, 10],
    },
    // One of the three that delegate to them went from one to the other. Both are marked before.
    Case {
        name: "two pools are reaped",
        genesis: TWO_POOLS,
        epochs: &[&[Line::Tx(
            "2",
            r#","certs":[{"cert":"delegate","cred":"k_10","pool":"_51"},{"cert":"pool-retire","pool":"_51","epoch":1},{"cert":"pool-retire","pool":"_50","epoch":1}]"#,
        )]],
        told: &[
            "epoch 1 frozen 3 dormant 1",
            "stake k_30 67",
            "stake k_31 33",
            "retired _50 refund 5 1k_12",
            "retired _51 refund 5 1k_11",
            "pots outputs 180 deposits 16 rewards 110 fees 20 donations 0 treasury 100 reserves 574 supply 1000",
        ],
        parts: [1, 100, 20, 0, 1, 10],
    },
    // None delegates to them any more.
    Case {
        name: "both come again",
        genesis: TWO_POOLS,
        epochs: &[
            &[Line::Tx(
                "2",
                r#","certs":[{"cert":"delegate","cred":"k_10","pool":"_51"},{"cert":"pool-retire","pool":"_51","epoch":1},{"cert":"pool-retire","pool":"_50","epoch":1}]"#,
            )],
            &[Line::Tx(
                "3",
                r#","fee":10,"certs":[{"cert":"pool-reg","pool":"_51","cost":0,"pledge":0,"margin":[0,1],"account":"1k_11"},{"cert":"pool-reg","pool":"_50","cost":0,"pledge":0,"margin":[0,1],"account":"1k_12"}]"#,
            )],
        ],
        told: &[
            "epoch 2 frozen 3 dormant 2",
            "stake k_30 67",
            "stake k_31 38",
            "pots outputs 160 deposits 26 rewards 110 fees 30 donations 0 treasury 100 reserves 574 supply 1000",
        ],
        parts: [1, 0, 30, 0, 1, 10],
    },
];

/// Withdrawals and donations. The treasury has 100.
pub const PAYMENTS: [Case; 4] = [
    // One stays, one left, and one came again.
    Case {
        name: "accounts left before they are paid",
        genesis: QUICK,
        epochs: &[
            &[Line::Tx(
                "2",
                r#","fee":10,"proposals":[{"deposit":10,"return":"1k_10","action":{"type":"TreasuryWithdrawals","targets":[["1k_10",10],["1k_11",20],["1k_12",30]]}}]"#,
            )],
            &[
                Line::Tx(
                    "3",
                    r#","outputs":[["1k_01",35,0]],"fee":22,"withdrawals":[["1k_11",33]],"certs":[{"cert":"account-unreg","cred":"k_12"},{"cert":"account-unreg","cred":"k_11"}]"#,
                ),
                Line::Tx(
                    "4",
                    r#","fee":18,"certs":[{"cert":"account-reg","cred":"k_12"}]"#,
                ),
            ],
        ],
        told: &[
            "epoch 2 frozen 2 dormant 1",
            "stake k_30 77",
            "stake k_31 33",
            "tally ^02#0 TreasuryWithdrawals committee 0/1 need 0/1 drep 0/110 need 0/1 pool 0/0 need none ratified",
            "paid 1k_10 10",
            "kept 1k_11 20",
            "paid 1k_12 30",
            "removed ^02#0 enacted refund 10 1k_10",
            "pots outputs 175 deposits 19 rewards 117 fees 50 donations 0 treasury 60 reserves 579 supply 1000",
        ],
        parts: [1, 0, 50, 0, 1, 10],
    },
    // The first leaves just enough for the second.
    Case {
        name: "two withdrawals share the treasury",
        genesis: QUICK,
        epochs: &[
            &[
                Line::Tx(
                    "2",
                    r#","fee":10,"proposals":[{"deposit":10,"return":"1k_12","action":{"type":"TreasuryWithdrawals","targets":[["1k_12",60]]}}]"#,
                ),
                Line::Tx(
                    "3",
                    r#","fee":10,"proposals":[{"deposit":10,"return":"1k_12","action":{"type":"TreasuryWithdrawals","targets":[["1k_12",40]]}}]"#,
                ),
            ],
            &[],
        ],
        told: &[
            "epoch 2 frozen 3 dormant 1",
            "stake k_30 67",
            "stake k_31 33",
            "tally ^02#0 TreasuryWithdrawals committee 0/1 need 0/1 drep 0/100 need 0/1 pool 0/0 need none ratified",
            "tally ^03#0 TreasuryWithdrawals committee 0/1 need 0/1 drep 0/100 need 0/1 pool 0/0 need none ratified",
            "paid 1k_12 60",
            "paid 1k_12 40",
            "removed ^02#0 enacted refund 10 1k_12",
            "removed ^03#0 enacted refund 10 1k_12",
            "pots outputs 160 deposits 21 rewards 220 fees 20 donations 0 treasury 0 reserves 579 supply 1000",
        ],
        parts: [1, 0, 20, 0, 1, 10],
    },
    // The first leaves too little for it.
    Case {
        name: "the second is too much",
        genesis: LASTING,
        epochs: &[
            &[
                Line::Tx(
                    "2",
                    r#","fee":10,"proposals":[{"deposit":10,"return":"1k_12","action":{"type":"TreasuryWithdrawals","targets":[["1k_12",60]]}}]"#,
                ),
                Line::Tx(
                    "3",
                    r#","fee":10,"proposals":[{"deposit":10,"return":"1k_12","action":{"type":"TreasuryWithdrawals","targets":[["1k_12",41]]}}]"#,
                ),
            ],
            &[],
        ],
        told: &[
            "epoch 2 frozen 3 dormant 0",
            "stake k_30 67",
            "stake k_31 33",
            "tally ^02#0 TreasuryWithdrawals committee 0/1 need 0/1 drep 0/100 need 0/1 pool 0/0 need none ratified",
            "tally ^03#0 TreasuryWithdrawals committee 0/1 need 0/1 drep 0/100 need 0/1 pool 0/0 need none waiting",
            "paid 1k_12 60",
            "removed ^02#0 enacted refund 10 1k_12",
            "pots outputs 160 deposits 31 rewards 170 fees 20 donations 0 treasury 40 reserves 579 supply 1000",
        ],
        parts: [1, 0, 20, 1, 1, 10],
    },
    // What joins the treasury at this boundary pays for none.
    Case {
        name: "a donation beside withdrawals",
        genesis: QUICK,
        epochs: &[
            &[
                Line::Tx(
                    "2",
                    r#","fee":10,"proposals":[{"deposit":10,"return":"1k_12","action":{"type":"TreasuryWithdrawals","targets":[["1k_12",101]]}}]"#,
                ),
                Line::Tx(
                    "3",
                    r#","fee":10,"proposals":[{"deposit":10,"return":"1k_12","action":{"type":"TreasuryWithdrawals","targets":[["1k_11",100]]}}]"#,
                ),
            ],
            &[Line::Tx("4", r#","fee":5,"donation":15"#)],
        ],
        told: &[
            "epoch 2 frozen 3 dormant 1",
            "stake k_30 67",
            "stake k_31 33",
            "tally ^02#0 TreasuryWithdrawals committee 0/1 need 0/1 drep 0/100 need 0/1 pool 0/0 need none expired",
            "tally ^03#0 TreasuryWithdrawals committee 0/1 need 0/1 drep 0/100 need 0/1 pool 0/0 need none ratified",
            "paid 1k_11 100",
            "removed ^02#0 expired refund 10 1k_12",
            "removed ^03#0 enacted refund 10 1k_12",
            "pots outputs 140 deposits 21 rewards 220 fees 25 donations 0 treasury 15 reserves 579 supply 1000",
        ],
        parts: [1, 0, 25, 0, 1, 10],
    },
];
