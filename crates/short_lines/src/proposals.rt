ghost use Rattle.std.specs.Prelude.{◌≡◌, [], ◌∷◌, IfOk, length};
ghost use Rattle.std.specs.List.{All};
ghost use Rattle.fewest_votes.specs.Ranked.{ranked_of};
ghost use Rattle.gov_actions.specs.declared.action.Proposal.{Proposal};
ghost use Rattle.gov_ids.specs.Orders.{voter_cmp};
ghost use Rattle.gov_model.specs.Snapshot.{Snapshot};
ghost use Rattle.maps.specs.Maps.{IsMap};
ghost use Rattle.report.specs.Taking.{HasPut};
ghost use Rattle.short_lines.specs.Ranked.{ForRanked, lines_of, of_priority};
ghost use Rattle.shortfall_model.specs.ShortLines.{shortfall_lines};
ghost use Rattle.shortfall_model.specs.Silent.{drep_count};
ghost use Rattle.snapshots.specs.Frozen.{frozen_copy_of};
ghost use Rattle.tally.specs.Cells.{AreCells};
ghost use Rattle.tally.specs.Counted.{CanBeCounted, ForSnapshot};

use crate::putting::put_short;
use byte_lines::SinkFault;
use coin_frac::NoMemory;
use drep_pulser::Counted;
use fewest_votes::Ranking;
use gov_actions::Proposal;
use report::LineTaker;
use snapshots::Frozen;
use std::alloc::Global;
use tally::{TallyCell, fill_cells};

// The number of action types, and so of priorities.
const TYPES: u8 = 7;

/// Hands over the lines of what each frozen proposal lacks, in order of priority. (Own)
/// Each replaces what the buffer held. After an error a prefix of the lines was taken.
/// It ranks DReps and counts proposals once, and drops each answer before the next proposal.
pub fn put_shortfalls<T: LineTaker>(
    alloc: Global,
    to: &mut T,
    text: &mut Vec<u8>,
    line: u64,
    f: &Frozen,
    c: &Counted,
) -> Result<(), SinkFault>
    requires { CanBeCounted f.now c.now }
    ensures { ForSnapshot f.now c.now (λ s. HasPut T.with_line T.IsPart line (T.taken to.old) (shortfall_lines s)
        (T.taken to.new) (T.faults to.old) (T.faults to.new) result) }
{
    let ranking = Ranking::of(alloc, f, c)?;
    let cells = cells_of(alloc, f, c)?;
    put_ranked(alloc, to, text, line, f, &ranking, cells.as_slice())
}

// What each role counts on each frozen proposal.
fn cells_of(alloc: Global, f: &Frozen, c: &Counted) -> Result<Vec<TallyCell>, NoMemory>
    requires { CanBeCounted f.now c.now }
    ensures counts { IfOk result (λ cells. AreCells f.now c.now cells.items) }
    ensures each { IfOk result (λ cells. length cells.items ≡ length f.now.proposals) }
{
    let mut cells = vec![in alloc; TallyCell::default(); f.proposals.len()]?;
    fill_cells(f, c, f.proposals.as_slice(), &mut cells);
    Ok(cells)
}

// Hands over all lines, by the ranking and the counts.
fn put_ranked<T: LineTaker>(
    alloc: Global,
    to: &mut T,
    text: &mut Vec<u8>,
    line: u64,
    f: &Frozen,
    ranking: &Ranking,
    cells: &[TallyCell],
) -> Result<(), SinkFault>
    requires voters { All (λ (a : Proposal). IsMap voter_cmp a.votes) f.now.proposals }
    requires each { length cells.now ≡ length f.now.proposals }
    ensures { ForRanked f.now ranking.now cells.now (λ s. HasPut T.with_line T.IsPart line (T.taken to.old)
        (shortfall_lines s) (T.taken to.new) (T.faults to.old) (T.faults to.new) result) }
{
    for priority in 0..TYPES {
        put_priority(alloc, to, text, line, f, ranking, cells, priority)?;
    }
    Ok(())
}

// Hands over the lines of one priority, in order of submission.
fn put_priority<T: LineTaker>(
    alloc: Global,
    to: &mut T,
    text: &mut Vec<u8>,
    line: u64,
    f: &Frozen,
    ranking: &Ranking,
    cells: &[TallyCell],
    priority: u8,
) -> Result<(), SinkFault>
    requires voters { All (λ (a : Proposal). IsMap voter_cmp a.votes) f.now.proposals }
    requires each { length cells.now ≡ length f.now.proposals }
    ensures { ForRanked f.now ranking.now cells.now (λ s. HasPut T.with_line T.IsPart line (T.taken to.old)
        (lines_of s (of_priority priority s.proposals)) (T.taken to.new) (T.faults to.old) (T.faults to.new) result) }
{
    let proposals = f.proposals.as_slice();
    for i in 0..proposals.len() {
        let count = cells[i].drep;
        put_proposal(
            alloc,
            to,
            text,
            line,
            f,
            ranking,
            count,
            &proposals[i],
            priority,
        )?;
    }
    Ok(())
}

// Hands over the lines of a proposal, if it is of the priority.
fn put_proposal<T: LineTaker>(
    alloc: Global,
    to: &mut T,
    text: &mut Vec<u8>,
    line: u64,
    f: &Frozen,
    ranking: &Ranking,
    count: (u64, u64),
    a: &Proposal,
    priority: u8,
) -> Result<(), SinkFault>
    requires { IsMap voter_cmp a.now.votes }
    ensures { (s : Snapshot) → f.now ≡ frozen_copy_of s → ranking.now ≡ ranked_of s → count ≡ drep_count s a.now →
        HasPut T.with_line T.IsPart line (T.taken to.old) (lines_of s (of_priority priority (a.now ∷ [])))
        (T.taken to.new) (T.faults to.old) (T.faults to.new) result }
{
    if a.action.priority() != priority {
        return Ok(());
    }
    let short = ranking.shortfall(alloc, f, count, a)?;
    put_short(to, text, line, &a.id, &short)
}
