ghost use Rattle.std.specs.Prelude.{◌≡◌, IfOk};
ghost use Rattle.gov_ids.specs.Orders.{credential_cmp};
ghost use Rattle.gov_model.specs.Ratified.{IsRatified, expired_of, tallies_of};
ghost use Rattle.gov_model.specs.Sides.{members_of};
ghost use Rattle.maps.specs.Maps.{IsMap};
ghost use Rattle.ratify.specs.Outcomes.{expired_by, is_over, state_by};
ghost use Rattle.tally.specs.Cells.{AreCells};
ghost use Rattle.tally.specs.Counted.{CanBeCounted, ForSnapshot};

use crate::pass::Pass;
use coin_frac::NoMemory;
use gov_actions::{EnactState, Proposal, Tally};
use gov_ids::ActionId;
use listed::Listed;
use maps::set_of;
use snapshots::Frozen;
use std::alloc::Global;
use std::collections::BTreeSet;
use tally::of_drep_pulser::Counted;
use tally::{TallyCell, fill_cells};

/// The result of the pass over a frozen epoch. (RatifyState of the formal specification)
#[derive(Drop)]
pub struct Outcome {
    /// What the next boundary enacts, in that order.
    pub ratified: Listed<ActionId>,
    /// Proposals that are not ratified and whose last epoch has passed, in order of submission.
    pub expired: Listed<ActionId>,
    /// The frozen state after all ratified proposals were enacted.
    pub state: EnactState,
    /// Counts, needs and verdict of each frozen proposal, in the order of the pass.
    pub tallies: Listed<Tally>,
}

/// Looks at the proposals in order of priority, each by the state after those ratified before it.
/// Once an action that delays is ratified, the others wait.
/// (CIP-1694, Ratification; RATIFY of the formal specification)
pub fn ratify(alloc: Global, f: &Frozen, c: &Counted) -> Result<Outcome, NoMemory>
    requires counted { CanBeCounted f.now c.now }
    ensures ratified { IfOk result (λ o. ForSnapshot f.now c.now (λ s. IsRatified s o.ratified)) }
    ensures expired { IfOk result (λ o. ForSnapshot f.now c.now (λ s. o.expired ≡ expired_of s o.ratified)) }
    ensures state { IfOk result (λ o. ForSnapshot f.now c.now (λ s. o.state ≡ state_by s o.ratified)) }
    ensures tallies { IfOk result (λ o. ForSnapshot f.now c.now (λ s. o.tallies ≡ tallies_of s o.ratified)) }
    ensures in_order { IfOk result (λ o. IsMap credential_cmp (members_of o.state.committee)) }
{
    let cells = cells_of(alloc, f, c)?;
    ratify_tallied(alloc, f, c, cells.as_slice())
}

/// Does what `ratify` does, by cells that hold the counts of the frozen proposals.
/// (CIP-1694, Ratification; RATIFY of the formal specification; that they are counted before: Own)
pub fn ratify_tallied(
    alloc: Global,
    f: &Frozen,
    c: &Counted,
    cells: &[TallyCell],
) -> Result<Outcome, NoMemory>
    requires counted { CanBeCounted f.now c.now }
    requires cells { AreCells f.now c.now cells.now }
    ensures ratified { IfOk result (λ o. ForSnapshot f.now c.now (λ s. IsRatified s o.ratified)) }
    ensures expired { IfOk result (λ o. ForSnapshot f.now c.now (λ s. o.expired ≡ expired_of s o.ratified)) }
    ensures state { IfOk result (λ o. ForSnapshot f.now c.now (λ s. o.state ≡ state_by s o.ratified)) }
    ensures tallies { IfOk result (λ o. ForSnapshot f.now c.now (λ s. o.tallies ≡ tallies_of s o.ratified)) }
    ensures in_order { IfOk result (λ o. IsMap credential_cmp (members_of o.state.committee)) }
{
    let Pass { passing, tallies } = Pass::over_all(alloc, f, cells)?;
    let expired = expired(alloc, f, passing.ratified.as_slice())?;
    Ok(Outcome {
        ratified: passing.ratified,
        expired,
        state: passing.state,
        tallies,
    })
}

// The cells of the frozen proposals.
fn cells_of(alloc: Global, f: &Frozen, c: &Counted) -> Result<Vec<TallyCell>, NoMemory>
    requires counted { CanBeCounted f.now c.now }
    ensures { IfOk result (λ cells. AreCells f.now c.now cells.items) }
{
    let mut cells = vec![in alloc; TallyCell::default(); f.proposals.len()]?;
    fill_cells(f, c, f.proposals.as_slice(), &mut cells);
    Ok(cells)
}

// The proposals that are not ratified and whose last epoch has passed.
fn expired(alloc: Global, f: &Frozen, ratified: &[ActionId]) -> Result<Listed<ActionId>, NoMemory>
    ensures { IfOk result (λ ids. ids ≡ expired_by f.now ratified.now) }
{
    let ratified = set_of(alloc, ratified)?;
    expired_beside(alloc, f, &ratified)
}

// The expired proposals, by the set of the ratified ones.
fn expired_beside(
    alloc: Global,
    f: &Frozen,
    ratified: &BTreeSet<ActionId>,
) -> Result<Listed<ActionId>, NoMemory>
    ensures { IfOk result (λ ids. ids ≡ expired_by f.now ratified.now.keys) }
{
    let mut ids = Listed::new(alloc);
    for a in f.proposals.as_slice() {
        if is_over(f.epoch, ratified, a) {
            ids.push(a.id)?;
        }
    }
    Ok(ids)
}

// Whether a proposal is not ratified and its last epoch has passed.
fn is_over(epoch: u64, ratified: &BTreeSet<ActionId>, a: &Proposal) -> bool
    ensures { result ≡ is_over epoch ratified.now.keys a.now }
{
    !ratified.contains(&a.id) && a.expires_after < epoch
}
