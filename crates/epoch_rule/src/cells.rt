ghost use Rattle.std.specs.Prelude.{◌≡◌, ◌≤◌, IfOk, length};
ghost use Rattle.tally.specs.Cells.{AreCells};
ghost use Rattle.tally.specs.Counted.{CanBeCounted};

use coin_frac::NoMemory;
use drep_pulser::Counted;
use par_count::{Gate, tally_all};
use snapshots::Frozen;
use std::alloc::Global;
use std::thread::Threads;
use tally::{TallyCell, fill_cells};

/// An empty cell for the counts of each frozen proposal.
pub(crate) fn cells_for(alloc: Global, f: &Frozen) -> Result<Vec<TallyCell>, NoMemory>
    ensures { IfOk result (λ cells. length cells.items ≡ length f.now.proposals) }
{
    Ok(vec![in alloc; TallyCell::default(); f.proposals.len()]?)
}

/// Counts each frozen proposal in its cell, with so many workers. It takes no memory.
/// (CIP-1694, Ratification)
pub(crate) fn tallied<R: Threads + Sync, G: Gate + Sync>(
    rt: &R,
    f: &Frozen,
    c: &Counted,
    mut cells: Vec<TallyCell>,
    workers: u32,
    gate: &G,
) -> Vec<TallyCell>
    requires some { 1 ≤ workers }
    requires few { workers ≤ 64 }
    requires counted { CanBeCounted f.now c.now }
    requires each { length cells.items ≡ length f.now.proposals }
    ensures { AreCells f.now c.now result.items }
{
    tally_all(rt, f, c, cells.as_mut_slice(), workers, gate);
    cells
}

/// The counts of each frozen proposal in a cell, counted in this thread. (CIP-1694, Ratification)
pub(crate) fn tallied_alone(
    alloc: Global,
    f: &Frozen,
    c: &Counted,
) -> Result<Vec<TallyCell>, NoMemory>
    requires { CanBeCounted f.now c.now }
    ensures { IfOk result (λ cells. AreCells f.now c.now cells.items) }
{
    let mut cells = cells_for(alloc, f)?;
    fill_cells(f, c, f.proposals.as_slice(), cells.as_mut_slice());
    Ok(cells)
}
