//! Blocks, transactions and reward updates of an epoch, one after another from a genesis.
use crate::lines::Line;
use crate::lines::Line::{Block, Genesis, Record, Tx};
use crate::state::Sums::{Part, Whole};
use crate::state::{Changed, Seen, Stop, after_line, begun};
use ledger_state::LedgerState;
use std::alloc::Global;
use std::process::Abort;
use std::test::Fail;
use tx_records::Reply;

/// A record, the rule that refuses it with its first number, or zeros, and what is seen after it.
type Row = (Line, (u16, u128), Seen);

/// A genesis, records over it, and the pots after: outputs, deposits, rewards, fees, treasury and
/// reserves.
type Case = (Line, &'static [Row], [u64; 6]);

const WORKED: Line = Genesis("");

/// It begins three slots before the last that there can be, and has nothing but reserves.
const LATE: Line = Genesis(
    r#","slot":4611686018427387900,"reserves":1000,"treasury":0,"committee":null,"outputs":[],"accounts":[],"pools":[],"dreps":[]"#,
);

/// The first of the three frozen accounts is counted. Then one before it comes, the next one leaves
/// with its balance and comes again for the other DRep, and the first delegates anew.
/// What was frozen is counted.
const COUNTED: [Row; 9] = [
    (Block("1", "1"), (0, 0), (1, 1, Part([67, 0]), false)),
    (
        Tx(
            "2",
            r#","fee":18,"certs":[{"cert":"account-reg","cred":"k_05","drep":"k_31"}]"#,
        ),
        (0, 0),
        (1, 1, Part([67, 0]), false),
    ),
    (
        Tx(
            "3",
            r#","outputs":[["1k_01+k_05",33,0]],"withdrawals":[["1k_11",33]],"certs":[{"cert":"account-unreg","cred":"k_11"},{"cert":"account-reg","cred":"k_11","drep":"k_30"},{"cert":"delegate","cred":"k_10","drep":"k_31"}]"#,
        ),
        (0, 0),
        (1, 1, Part([67, 0]), false),
    ),
    (Block("1", "1"), (10, 1), (1, 1, Part([67, 0]), false)),
    (Block("0", "1"), (10, 1), (1, 1, Part([67, 0]), false)),
    (Block("20", "1"), (11, 0), (1, 1, Part([67, 0]), false)),
    (Block("2", "0"), (12, 0), (1, 1, Part([67, 0]), false)),
    (Block("2", "2"), (0, 0), (2, 3, Whole([67, 33]), false)),
    (Block("3", "1"), (0, 0), (3, 3, Whole([67, 33]), false)),
];

/// The counted account leaves; an uncounted one leaves, and returns once it is; the last delegates.
const LEFT: [Row; 7] = [
    (Block("1", "1"), (0, 0), (1, 1, Part([67, 0]), false)),
    (
        Tx(
            "2",
            r#","outputs":[["1k_01",69,0]],"withdrawals":[["1k_10",67]],"certs":[{"cert":"account-unreg","cred":"k_10"}]"#,
        ),
        (0, 0),
        (1, 1, Part([67, 0]), false),
    ),
    (
        Tx(
            "3",
            r#","outputs":[["1k_01+k_12",35,0]],"withdrawals":[["1k_11",33]],"certs":[{"cert":"account-unreg","cred":"k_11"}]"#,
        ),
        (0, 0),
        (1, 1, Part([67, 0]), false),
    ),
    (
        Tx(
            "4",
            r#","certs":[{"cert":"delegate","cred":"k_12","drep":"k_30"}]"#,
        ),
        (0, 0),
        (1, 1, Part([67, 0]), false),
    ),
    (Block("2", "1"), (0, 0), (2, 2, Part([67, 33]), false)),
    (
        Tx(
            "5",
            r#","fee":18,"certs":[{"cert":"account-reg","cred":"k_11","drep":"k_31"}]"#,
        ),
        (0, 0),
        (2, 2, Part([67, 33]), false),
    ),
    (Block("3", "1"), (0, 0), (3, 3, Whole([67, 33]), false)),
];

/// Blocks that break a rule, alone or beside a later one, and count nothing; one that counts all.
const BLOCKS: [Row; 8] = [
    (Block("0", "1"), (10, 0), (0, 0, Part([0, 0]), false)),
    (Block("0", "0"), (10, 0), (0, 0, Part([0, 0]), false)),
    (Block("20", "1"), (11, 0), (0, 0, Part([0, 0]), false)),
    (Block("20", "0"), (11, 0), (0, 0, Part([0, 0]), false)),
    (
        Block("4611686018427387903", "1"),
        (11, 0),
        (0, 0, Part([0, 0]), false),
    ),
    (Block("1", "0"), (12, 0), (0, 0, Part([0, 0]), false)),
    (
        Block("9", "4294967295"),
        (0, 0),
        (9, 3, Whole([67, 33]), false),
    ),
    (Block("5", "1"), (10, 9), (9, 3, Whole([67, 33]), false)),
];

/// The last slot that there can be, and once more; there is nothing to count.
const LATE_BLOCKS: [Row; 3] = [
    (
        Block("4611686018427387900", "1"),
        (10, 4_611_686_018_427_387_900),
        (4_611_686_018_427_387_900, 0, Part([0, 0]), false),
    ),
    (
        Block("4611686018427387903", "1"),
        (0, 0),
        (4_611_686_018_427_387_903, 0, Whole([0, 0]), false),
    ),
    (
        Block("4611686018427387903", "4294967295"),
        (10, 4_611_686_018_427_387_903),
        (4_611_686_018_427_387_903, 0, Whole([0, 0]), false),
    ),
];

/// Updates that break a rule, alone or beside a later one; one that breaks none; then more of them.
const UPDATES: [Row; 11] = [
    (
        Record(
            r#"{"kind":"rewards","epoch":1,"fromReserves":0,"fromFees":0,"toTreasury":0,"rewards":[]}"#,
        ),
        (20, 0),
        (0, 0, Part([0, 0]), false),
    ),
    (
        Record(
            r#"{"kind":"rewards","epoch":1,"fromReserves":1,"fromFees":0,"toTreasury":0,"rewards":[]}"#,
        ),
        (20, 0),
        (0, 0, Part([0, 0]), false),
    ),
    (
        Record(
            r#"{"kind":"rewards","epoch":0,"fromReserves":50,"fromFees":0,"toTreasury":10,"rewards":[["k_10",30],["k_99",9]]}"#,
        ),
        (22, 50),
        (0, 0, Part([0, 0]), false),
    ),
    (
        Record(
            r#"{"kind":"rewards","epoch":0,"fromReserves":580,"fromFees":0,"toTreasury":0,"rewards":[]}"#,
        ),
        (22, 580),
        (0, 0, Part([0, 0]), false),
    ),
    (
        Record(
            r#"{"kind":"rewards","epoch":0,"fromReserves":580,"fromFees":0,"toTreasury":580,"rewards":[]}"#,
        ),
        (23, 579),
        (0, 0, Part([0, 0]), false),
    ),
    (
        Record(
            r#"{"kind":"rewards","epoch":0,"fromReserves":580,"fromFees":1,"toTreasury":581,"rewards":[]}"#,
        ),
        (23, 579),
        (0, 0, Part([0, 0]), false),
    ),
    (
        Record(
            r#"{"kind":"rewards","epoch":0,"fromReserves":0,"fromFees":1,"toTreasury":1,"rewards":[]}"#,
        ),
        (24, 0),
        (0, 0, Part([0, 0]), false),
    ),
    (
        Record(
            r#"{"kind":"rewards","epoch":0,"fromReserves":50,"fromFees":0,"toTreasury":10,"rewards":[["k_99",10],["k_10",30]]}"#,
        ),
        (0, 0),
        (0, 0, Part([0, 0]), true),
    ),
    (
        Record(
            r#"{"kind":"rewards","epoch":0,"fromReserves":50,"fromFees":0,"toTreasury":10,"rewards":[["k_99",10],["k_10",30]]}"#,
        ),
        (21, 0),
        (0, 0, Part([0, 0]), true),
    ),
    (
        Record(
            r#"{"kind":"rewards","epoch":0,"fromReserves":1,"fromFees":0,"toTreasury":0,"rewards":[]}"#,
        ),
        (21, 0),
        (0, 0, Part([0, 0]), true),
    ),
    (
        Record(
            r#"{"kind":"rewards","epoch":1,"fromReserves":0,"fromFees":0,"toTreasury":0,"rewards":[]}"#,
        ),
        (20, 0),
        (0, 0, Part([0, 0]), true),
    ),
];

/// An asset is minted. Giving less of it than is taken is refused; burning the rest is not.
const MINTED: [Row; 3] = [
    (
        Tx(
            "2",
            r#","mint":[["_05","",7]],"outputs":[["1k_01",0,0,[["_05","",7]]]]"#,
        ),
        (0, 0),
        (0, 0, Part([0, 0]), false),
    ),
    (
        Tx(
            "3",
            r#","inputs":["^02#0","^01#3"],"outputs":[["1k_01",0,0,[["_05","",5]]]]"#,
        ),
        (111, 7),
        (0, 0, Part([0, 0]), false),
    ),
    (
        Tx(
            "4",
            r#","inputs":["^02#0","^01#4"],"mint":[["_05","",-2]],"outputs":[["1k_01",0,0,[["_05","",5]]]]"#,
        ),
        (0, 0),
        (0, 0, Part([0, 0]), false),
    ),
];

/// Collateral holds an asset, which its return gives back, or the transaction is refused.
const RETURNED: [Row; 3] = [
    (
        Tx(
            "2",
            r#","fee":0,"mint":[["_05","",7]],"outputs":[["1k_01",20,0,[["_05","",7]]]]"#,
        ),
        (0, 0),
        (0, 0, Part([0, 0]), false),
    ),
    (
        Tx(
            "3",
            r#","scripts":"failed","fee":4,"collateral":["^02#0"],"collateralReturn":["1k_01",14,0]"#,
        ),
        (46, 0),
        (0, 0, Part([0, 0]), false),
    ),
    (
        Tx(
            "3",
            r#","scripts":"failed","fee":4,"collateral":["^02#0"],"collateralReturn":["1k_01",14,0,[["_05","",7]]]"#,
        ),
        (0, 0),
        (0, 0, Part([0, 0]), false),
    ),
];

const CASES: [Case; 7] = [
    (WORKED, &COUNTED, [193, 23, 67, 38, 100, 579]),
    (WORKED, &LEFT, [224, 19, 0, 78, 100, 579]),
    (WORKED, &BLOCKS, [200, 21, 100, 0, 100, 579]),
    (LATE, &LATE_BLOCKS, [0, 0, 0, 0, 0, 1000]),
    // what an update takes and gives waits for the boundary
    (WORKED, &UPDATES, [200, 21, 100, 0, 100, 579]),
    (WORKED, &MINTED, [160, 21, 100, 40, 100, 579]),
    (WORKED, &RETURNED, [194, 21, 100, 6, 100, 579]),
];

/// The rule that refused a record and the first number that it keeps, or zeros.
fn refusal(reply: Reply) -> (u16, u128) {
    match reply {
        Reply::Refused(rule) => (rule.number, rule.first),
        Reply::Accepted | Reply::AcceptedFailedScripts => (0, 0),
    }
}

/// The pots of the state of a genesis after these rows, each of which leaves what it says.
fn pots_after<S: Changed + Drop>(
    rt: &impl Abort,
    alloc: Global,
    genesis: Line,
    rows: &[Row],
) -> Result<[u64; 6], Stop> {
    let mut s: S = begun(alloc, genesis)?;
    for (at, (line, answer, seen)) in rows.iter().enumerate() {
        let (next, reply) = after_line(alloc, s, *line)?;
        s = next;
        assert_eq!(rt; (refusal(reply), s.seen()), (*answer, *seen), "row {at}");
    }
    Ok(s.pots())
}

#[test]
fn records_leave_what_they_say(rt: HostRuntime) -> Result<(), Fail> {
    for (genesis, rows, pots) in CASES {
        assert_eq!(&rt;
            pots_after::<LedgerState>(&rt, rt.alloc(), genesis, rows)?,
            pots
        );
    }
    Ok(())
}
