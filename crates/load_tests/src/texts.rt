//! The text of summaries, whole and up to a write that fails.
use byte_lines::{FaultySink, MemorySink, SinkFault, put_all};
use load_model::LoadSummary;
use load_summary::{load_text, write_load};
use std::test::Fail;
use tx_records::Pots;

/// The summary of seed 7, four accounts and two epochs.
fn small() -> LoadSummary {
    LoadSummary {
        seed: 7,
        accounts: 4,
        epochs: 2,
        records: 14,
        accepted: 7,
        refused: 2,
        blocks: 4,
        ratified: 1,
        expired: 0,
        waiting: 0,
        pots: Pots {
            outputs: 9_999_999_967,
            deposits: 33,
            rewards: 26,
            fees: 5,
            donations: 0,
            treasury: 999_994,
            reserves: 9_998_999_975,
        },
    }
}

/// That of seed 1, 100,000 accounts and five epochs.
fn large() -> LoadSummary {
    LoadSummary {
        seed: 1,
        accounts: 100_000,
        epochs: 5,
        records: 231,
        accepted: 215,
        refused: 5,
        blocks: 10,
        ratified: 0,
        expired: 2,
        waiting: 7,
        pots: Pots {
            outputs: 9_999_799_740,
            deposits: 200_045,
            rewards: 35,
            fees: 210,
            donations: 0,
            treasury: 1_000_010,
            reserves: 9_998_999_960,
        },
    }
}

const SMALL: [&str; 4] = [
    "load seed 7 accounts 4 epochs 2\n",
    "records 14 accepted 7 refused 2 blocks 4\n",
    "ratified 1 expired 0 waiting 0\n",
    "pots outputs 9999999967 deposits 33 rewards 26 fees 5 donations 0 treasury 999994 reserves 9998999975 supply 20000000000\n",
];

const LARGE: [&str; 4] = [
    "load seed 1 accounts 100000 epochs 5\n",
    "records 231 accepted 215 refused 5 blocks 10\n",
    "ratified 0 expired 2 waiting 7\n",
    "pots outputs 9999799740 deposits 200045 rewards 35 fees 210 donations 0 treasury 1000010 reserves 9998999960 supply 20000000000\n",
];

#[test]
fn four_lines(rt: HostRuntime) -> Result<(), Fail> {
    for (summary, lines) in [(small(), SMALL), (large(), LARGE)] {
        let text = load_text(rt.alloc(), &summary)?;
        assert_eq!(rt; text.len(), lines.len());
        for (line, want) in text.iter().zip(lines.iter()) {
            assert_eq!(rt; line.as_slice(), want.as_bytes());
        }
    }
    Ok(())
}

#[test]
fn each_write_fails(rt: HostRuntime) -> Result<(), Fail> {
    let mut wanted = MemorySink::new(rt.alloc());
    for (k, line) in SMALL.iter().enumerate() {
        let failing = [k as u64];
        let mut sink = FaultySink::new(rt.alloc(), 65_536, &failing);
        let wrote = write_load(rt.alloc(), &mut sink, &small());
        assert_eq!(rt; wrote, Err(SinkFault::WriteFault), "write {k}");
        assert_eq!(rt; sink.as_slice(), wanted.as_slice(), "write {k}");
        put_all(&mut wanted, line.as_bytes())?;
    }
    let mut sink = MemorySink::new(rt.alloc());
    write_load(rt.alloc(), &mut sink, &small())?;
    assert_eq!(rt; sink.as_slice(), wanted.as_slice());
    Ok(())
}
