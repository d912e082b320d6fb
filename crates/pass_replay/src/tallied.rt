//! Counts the proposals of a snapshot with each number of workers. The counts must agree, and each
//! worker that has a proposal must enter the gate once.
ghost use Rattle.std.specs.Prelude.{◌≤◌};
ghost use Rattle.tally.specs.Counted.{CanBeCounted};

use crate::stop::{Result, Stop};
use drep_pulser::Counted;
use par_count::{Gate, tally_all};
use snapshots::Frozen;
use std::alloc::Global;
use std::sync::atomic::{AtomicU64, Ordering};
use std::thread::Threads;
use tally::TallyCell;

// The greatest number of workers.
const MOST: u32 = 64;

// A gate that remembers how often workers entered, and which did, the first as the lowest bit.
#[derive(Drop)]
struct Entered {
    calls: AtomicU64,
    workers: AtomicU64,
}

impl Gate for Entered {
    fn enter(&self, worker: u32) {
        self.calls.fetch_add(1, Ordering::SeqCst);
        self.workers
            .fetch_or(1u64.wrapping_shl(worker), Ordering::SeqCst);
    }
}

// Whether exactly the first workers, as many as have cells, entered, each once.
fn is_entered(gate: &Entered, cells: usize, workers: u32) -> bool
    requires { 1 ≤ workers }
{
    let share = cells.div_ceil(workers as usize).max(1);
    let having = cells.div_ceil(share);
    let bits = (0..having).fold(0u64, |bits, _| bits.wrapping_mul(2).wrapping_add(1));
    gate.calls.load(Ordering::SeqCst) == having as u64
        && gate.workers.load(Ordering::SeqCst) == bits
}

fn tallied_by<R: Threads + Sync>(
    rt: &R,
    alloc: Global,
    f: &Frozen,
    c: &Counted,
    workers: u32,
) -> Result<Vec<TallyCell>>
    requires counted { CanBeCounted f.now c.now }
    requires some { 1 ≤ workers }
    requires few { workers ≤ 64 }
{
    let gate = Entered {
        calls: AtomicU64::new(0),
        workers: AtomicU64::new(0),
    };
    let mut cells = vec![in alloc; TallyCell::default(); f.proposals.len()]?;
    tally_all(rt, f, c, &mut cells, workers, &gate);
    if is_entered(&gate, cells.len(), workers) {
        Ok(cells)
    } else {
        Err(Stop)
    }
}

pub(crate) fn tallied<R: Threads + Sync>(
    rt: &R,
    alloc: Global,
    f: &Frozen,
    c: &Counted,
) -> Result<Vec<TallyCell>>
    requires { CanBeCounted f.now c.now }
{
    let cells = tallied_by(rt, alloc, f, c, 1)?;
    for workers in 2..=MOST {
        let others = tallied_by(rt, alloc, f, c, workers)?;
        if others.as_slice() != cells.as_slice() {
            return Err(Stop);
        }
    }
    Ok(cells)
}
