ghost use Rattle.std.specs.Prelude.{◌≡◌, ◌≤◌, true, IfOk, if◌then◌else◌};
ghost use Rattle.gov_ids.specs.Orders.{credential_cmp};
ghost use Rattle.gov_model.specs.Enacted.{withdrawn_by};
ghost use Rattle.gov_model.specs.Sides.{members_of};
ghost use Rattle.maps.specs.Maps.{IsMap};
ghost use Rattle.ratify.specs.Passes.{Begins, LooksAtOne, TellsOne, is_next, verdict_by, with_enacted};

use crate::ready::{are_met, can_be_enacted, counts_in, needs_of};
use coin_frac::NoMemory;
use enact::Enact;
use gov_actions::{Action, EnactState, Need, Proposal, Tally, Verdict};
use gov_ids::ActionId;
use listed::Listed;
use snapshots::Frozen;
use std::alloc::Global;
use tally::TallyCell;

/// The pass over a frozen epoch so far. (CIP-1694, Ratification; its calls: Own)
#[derive(Drop)]
pub struct Passing {
    /// What is ratified so far, in the order of enactment.
    pub ratified: Listed<ActionId>,
    /// Whether none of these makes the others wait.
    pub goes_on: bool,
    /// The state after these.
    pub state: EnactState,
}

impl Passing {
    /// The pass before any proposal.
    pub fn begin(alloc: Global, f: &Frozen) -> Result<Passing, NoMemory>
        requires members { IsMap credential_cmp (members_of f.now.start.committee) }
        ensures passed { IfOk result (Begins f.now) }
        ensures members { IfOk result (λ p. IsMap credential_cmp (members_of p.state.committee)) }
    {
        Ok(Passing {
            ratified: Listed::new(alloc),
            goes_on: true,
            state: f.start.copied(alloc)?,
        })
    }

    /// Looks at the next proposal in order of priority, by its counts. (CIP-1694, Ratification)
    pub fn look_at(
        self,
        alloc: Global,
        f: &Frozen,
        a: &Proposal,
        counts: TallyCell,
    ) -> Result<(Passing, Tally), NoMemory>
        requires members { IsMap credential_cmp (members_of self.state.committee) }
        ensures passed { IfOk result (λ r. LooksAtOne f.now counts self a.now r.0) }
        ensures tally { IfOk result (λ r. TellsOne f.now counts self a.now r.1) }
        ensures members { IfOk result (λ r. IsMap credential_cmp (members_of r.0.state.committee)) }
    {
        let counts = counts_in(&counts);
        let needs = needs_of(f, &self.state, &a.action);
        let ready = self.is_next(f.epoch, &a.action, &needs, &counts);
        let verdict = verdict_of(ready, a.expires_after, f.epoch);
        let passing = self.enact_if(ready, alloc, a)?;
        let tally = Tally {
            id: a.id,
            kind: a.action.kind(),
            counts,
            needs,
            verdict,
        };
        Ok((passing, tally))
    }

    // Whether the next action is ratified, by the needs of the roles and by their counts.
    fn is_next(&self, epoch: u64, a: &Action, needs: &[Need; 3], counts: &[(u64, u64); 3]) -> bool
        ensures { result ≡ is_next epoch self.now a.now needs.now counts.now }
    {
        self.goes_on && can_be_enacted(epoch, &self.state, a) && are_met(needs, counts)
    }

    // Adds the proposal to the ratified ones and enacts it, if it is ready.
    fn enact_if(self, ready: bool, alloc: Global, a: &Proposal) -> Result<Passing, NoMemory>
        requires affordable { ready ≡ true → withdrawn_by a.now.action ≤ self.state.treasury }
        requires members { IsMap credential_cmp (members_of self.state.committee) }
        ensures enacted { IfOk result (λ p. p ≡ (if ready then with_enacted a.now self else self)) }
        ensures members { IfOk result (λ p. IsMap credential_cmp (members_of p.state.committee)) }
    {
        if !ready {
            return Ok(self);
        }
        let mut ratified = self.ratified;
        ratified.push(a.id)?;
        Ok(Passing {
            ratified,
            goes_on: !a.action.delaying(),
            state: self.state.apply(alloc, a.id, &a.action)?,
        })
    }
}

// The verdict on a proposal, by whether it is ready and by its last epoch.
fn verdict_of(ready: bool, last: u64, epoch: u64) -> Verdict
    ensures { result ≡ verdict_by ready last epoch }
{
    if ready {
        Verdict::Ratified
    } else if last < epoch {
        Verdict::Expired
    } else {
        Verdict::Waiting
    }
}
