ghost use Rattle.std.specs.Prelude.{◌≡◌, IfOk};
ghost use Rattle.epoch_steps.specs.Decisions.{decided_of};
ghost use Rattle.ratify.specs.of_tally.Cells.{AreCells};
ghost use Rattle.ratify.specs.of_tally.Counted.{CanBeCounted, ForSnapshot};

use frozen_reads::{enacted_targets, stakes_of};
use gov_actions::{EnactState, Tally};
use gov_ids::{Account, ActionId, Drep};
use gov_model::one_list_is_ratified;
use listed::Listed;
use no_memory::NoMemory;
use ratify::of_drep_pulser::Counted;
use ratify::of_tally::TallyCell;
use ratify::ratify_tallied;
use snapshots::Frozen;
use std::alloc::Global;

/// What the pass of the ended epoch decides, and what a boundary reports of it.
/// (RatifyState of the formal specification; the stakes and the targets are own)
#[derive(Drop)]
pub struct Decided {
    /// What is enacted, in the order in which it is enacted.
    pub ratified: Listed<ActionId>,
    /// What is not ratified and whose last epoch has passed, in order of submission.
    pub expired: Listed<ActionId>,
    /// The frozen state after all that is ratified was enacted.
    pub state: EnactState,
    /// Counts, needs and verdict of each frozen proposal, in the order of the pass.
    pub tallies: Listed<Tally>,
    /// The stakes of the frozen DReps and of the two predefined ones, in lovelace.
    pub stakes: Listed<(Drep, u64)>,
    /// The targets of what is enacted, with their amounts in lovelace.
    pub targets: Listed<(Account, u64)>,
}

/// The decisions of a frozen epoch with its count, by cells that hold its proposals' counts.
/// (CIP-1694, Ratification; RATIFY of the formal specification)
pub fn decide(
    alloc: Global,
    f: &Frozen,
    c: &Counted,
    cells: &[TallyCell],
) -> Result<Decided, NoMemory>
    requires counted { CanBeCounted f.now c.now }
    requires cells { AreCells f.now c.now cells.now }
    ensures { IfOk result (λ d. ForSnapshot f.now c.now (λ s. d ≡ decided_of s)) }
{
    one_list_is_ratified();
    let outcome = ratify_tallied(alloc, f, c, cells)?;
    let stakes = stakes_of(alloc, f, c)?;
    let targets = enacted_targets(alloc, f.proposals.as_slice(), outcome.ratified.as_slice())?;
    Ok(Decided {
        ratified: outcome.ratified,
        expired: outcome.expired,
        state: outcome.state,
        tallies: outcome.tallies,
        stakes: Listed::from_vec(stakes),
        targets: Listed::from_vec(targets),
    })
}
