ghost use Rattle.std.specs.Prelude.{◌≡◌, ◌+◌, ◌*◌, ◌<◌, ◌≤◌, length};
ghost use Rattle.par_count.specs.Shares.{AreCellsFrom};
ghost use Rattle.tally.specs.Cells.{AreCells};
ghost use Rattle.tally.specs.Counted.{CanBeCounted};

use crate::gate::Gate;
use drep_pulser::Counted;
use snapshots::Frozen;
use std::thread::{Threads, for_each_chunk_mut};
use tally::{TallyCell, fill_cells};

/// Writes the counts of the frozen proposals into their cells. It takes no memory.
/// s is cells/`workers`, rounded up: worker w has the cells from w·s to below (w+1)·s, if any.
/// A worker with cells enters the gate once, first. (CIP-1694, Ratification; the shares: Own)
pub fn tally_all<R: Threads + Sync, G: Gate + Sync>(
    rt: &R,
    f: &Frozen,
    c: &Counted,
    cells: &mut [TallyCell],
    workers: u32,
    gate: &G,
)
    requires some { 1 ≤ workers }
    requires few { workers ≤ 64 }
    requires counted { CanBeCounted f.now c.now }
    requires each { length cells.old ≡ length f.now.proposals }
    ensures cells { AreCells f.now c.now cells.new }
{
    if cells.is_empty() {
        return;
    }
    let share = cells.len().div_ceil(workers as usize);
    let work = |start: usize, part: &mut [TallyCell]|
        requires some { 0 < share }
        requires few { start < 64 * share }
        requires counted { CanBeCounted f.now c.now }
        requires within { start + length part.old ≤ length f.now.proposals }
        ensures { AreCellsFrom f.entry.now c.entry.now start (length part.old) part.new }
    { fill_share(f, c, gate, share, start, part) };
    for_each_chunk_mut(rt, cells, share, &work);
}

// The cells of one worker, from `start` on.
fn fill_share<G: Gate>(
    f: &Frozen,
    c: &Counted,
    gate: &G,
    share: usize,
    start: usize,
    part: &mut [TallyCell],
)
    requires some { 0 < share }
    requires few { start < 64 * share }
    requires counted { CanBeCounted f.now c.now }
    requires within { start + length part.old ≤ length f.now.proposals }
    ensures { AreCellsFrom f.now c.now start (length part.old) part.new }
{
    gate.enter((start / share) as u32);
    let proposals = f.proposals.as_slice();
    fill_cells(f, c, &proposals[start..start + part.len()], part);
}
