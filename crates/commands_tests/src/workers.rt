//! Two workers are at work at once, and write what one writes.
use crate::memory::ran_through;
use crate::streams::{ONE_BOUNDARY, TWO_BOUNDARIES, stream};
use byte_lines::{MemorySink, MemorySource};
use commands::Status;
use no_memory::NoMemory;
use par_count::{Gate, OpenGate};
use std::alloc::Global;
use std::process::Abort;
use std::sync::atomic::{AtomicU64, Ordering};
use std::test::Fail;
use std::thread::{Threads, yield_now};

/// How many turns the workers may wait, all together.
const MOST_TURNS: u64 = 500_000_000;

/// A gate that keeps each of two workers until the other has entered as often, so many times.
/// It counts how often each entered and how many turns they waited.
#[derive(Drop)]
struct Meeting {
    times: u64,
    first: AtomicU64,
    second: AtomicU64,
    turns: AtomicU64,
}

impl Meeting {
    fn new(times: u64) -> Meeting {
        Meeting {
            times,
            first: AtomicU64::new(0),
            second: AtomicU64::new(0),
            turns: AtomicU64::new(0),
        }
    }

    /// How often each entered.
    fn entered(&self) -> [u64; 2] {
        [
            self.first.load(Ordering::SeqCst),
            self.second.load(Ordering::SeqCst),
        ]
    }
}

impl Gate for Meeting {
    fn enter(&self, worker: u32) {
        let (own, other) = if worker == 0 {
            (&self.first, &self.second)
        } else {
            (&self.second, &self.first)
        };
        let before = own.fetch_add(1, Ordering::SeqCst);
        if before >= self.times {
            return;
        }
        for _turn in 0..MOST_TURNS {
            if other.load(Ordering::SeqCst) > before
                || self.turns.fetch_add(1, Ordering::SeqCst) >= MOST_TURNS
            {
                return;
            }
            yield_now();
        }
    }
}

/// A command, the shape of its input, how often two workers meet, and how often each enters.
type Row = (&'static str, &'static str, u64, [u64; 2]);

/// At one boundary the count of the genesis' epoch is shared, at the second of two the count and
/// the tallies. The end of a `shortfall` or an `outlook` is counted in one thread: nobody enters.
/// A `load` has one proposal for its second boundary, so the first worker tallies alone.
const ROWS: [Row; 7] = [
    ("replay", ONE_BOUNDARY, 1, [1, 1]),
    ("replay", TWO_BOUNDARIES, 2, [2, 2]),
    ("shortfall", ONE_BOUNDARY, 1, [1, 1]),
    ("shortfall", TWO_BOUNDARIES, 2, [2, 2]),
    ("outlook", ONE_BOUNDARY, 1, [1, 1]),
    ("outlook", TWO_BOUNDARIES, 2, [2, 2]),
    ("load --seed 999 --accounts 4 --epochs 2", "", 1, [2, 1]),
];

/// What a run writes whose workers enter a gate, and which is read to its end.
fn written_through<R: Threads + Abort + Sync, G: Gate + Sync>(
    rt: &R,
    alloc: Global,
    words: &str,
    bytes: &[u8],
    gate: &G,
) -> Result<MemorySink, NoMemory> {
    let mut source = MemorySource::new(bytes, 65_536);
    let mut sink = MemorySink::new(alloc);
    let status = ran_through(rt, alloc, words, &mut source, &mut sink, gate)?;
    assert_eq!(rt; status, Status::Done, "{words}");
    Ok(sink)
}

/// Two workers meet and enter as often as a row says, and write what one writes, which is a text.
fn compare<R: Threads + Abort + Sync>(rt: &R, alloc: Global, row: Row) -> Result<(), NoMemory> {
    let (command, shape, times, entered) = row;
    let bytes = stream(alloc, shape)?;
    let words = format!(in alloc; "{command} --workers 2")?;
    let alone = written_through(rt, alloc, command, bytes.as_slice(), &OpenGate)?;
    let meeting = Meeting::new(times);
    let shared = written_through(rt, alloc, words.as_str(), bytes.as_slice(), &meeting)?;
    assert!(rt; !alone.as_slice().is_empty(), "at {row:?}");
    assert_eq!(rt; shared.as_slice(), alone.as_slice(), "at {row:?}");
    assert_eq!(rt; meeting.entered(), entered, "at {row:?}");
    assert!(rt;
        meeting.turns.load(Ordering::SeqCst) < MOST_TURNS,
        "at {row:?}"
    );
    Ok(())
}

/// Each worker enters as often as its shares say, with the other there.
#[test]
fn two_are_at_work(rt: HostRuntime) -> Result<(), Fail> {
    for row in ROWS {
        compare(&rt, rt.alloc(), row)?;
    }
    Ok(())
}
