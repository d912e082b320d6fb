//! A row, and what is printed of it.
ghost use Rattle.std.specs.List.{All};
ghost use Rattle.gov_actions.specs.declared.action.Proposal.{Proposal};
ghost use Rattle.gov_ids.specs.Orders.{credential_cmp, voter_cmp};
ghost use Rattle.gov_model.specs.Laws.{HaveDistinctIds};
ghost use Rattle.gov_model.specs.Sides.{members_of};
ghost use Rattle.maps.specs.Maps.{IsMap};
ghost use Rattle.tally.specs.Counted.{CanBeCounted};

use crate::checked::check;
use crate::counts::counted;
use crate::frozen::frozen;
use crate::numbers::Numbers;
use crate::shown::{show_counts, show_outcome, show_stakes};
use crate::stop::Result;
use crate::tallied::tallied;
use drep_pulser::Counted;
use ratify::ratify;
use snapshots::Frozen;
use std::alloc::Global;
use std::thread::Threads;

// Prints what each proposal counts and needs, and the result of the pass.
fn show_pass<R: Print + Threads + Sync>(
    rt: &R,
    alloc: Global,
    f: &Frozen,
    c: &Counted,
) -> Result<()>
    requires { CanBeCounted f.now c.now }
{
    let cells = tallied(rt, alloc, f, c)?;
    show_counts(rt, f, cells.as_slice())?;
    let o = ratify(alloc, f, c)?;
    let shown = show_outcome(rt, &o);
    drop(o);
    Ok(shown?)
}

// Reads the count beside the snapshot in a row, and prints both.
fn show_counted<R: Print + Threads + Sync>(
    rt: &R,
    alloc: Global,
    f: &Frozen,
    n: &mut Numbers,
) -> Result<()>
    requires distinct { HaveDistinctIds f.now.proposals }
    requires voters { All (λ (a : Proposal). IsMap voter_cmp a.votes) f.now.proposals }
    requires members { IsMap credential_cmp (members_of f.now.start.committee) }
{
    let c = counted(alloc, f.dreps.as_slice(), n)?;
    n.end()?;
    check(f, &c)?;
    show_stakes(rt, &c)?;
    show_pass(rt, alloc, f, &c)
}

pub(crate) fn show_row<R: Print + Threads + Sync>(rt: &R, alloc: Global, line: &str) -> Result<()> {
    let mut n = Numbers::of_line(alloc, line)?;
    let f = frozen(alloc, &mut n)?;
    let shown = show_counted(rt, alloc, &f, &mut n);
    drop(f);
    shown
}
