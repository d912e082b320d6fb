ghost use Rattle.std.specs.Prelude.{◌≡◌, IfOk};
ghost use Rattle.gov_ids.specs.Orders.{credential_cmp};
ghost use Rattle.gov_model.specs.Ratified.{order_of};
ghost use Rattle.gov_model.specs.Sides.{members_of};
ghost use Rattle.maps.specs.Maps.{IsMap};
ghost use Rattle.ratify.specs.Passes.{AddsOne, ForTallied, LooksAt, of_priority, pass_after};

use crate::passing::Passing;
use coin_frac::NoMemory;
use gov_actions::{Proposal, Tally};
use listed::Listed;
use snapshots::Frozen;
use std::alloc::Global;
use tally::TallyCell;

// The number of types of actions, which is that of priorities.
const TYPES: u8 = 7;

// A pass so far, and its tallies.
#[derive(Drop)]
pub(crate) struct Pass {
    pub(crate) passing: Passing,
    // The tallies of the proposals that were looked at, in order.
    pub(crate) tallies: Listed<Tally>,
}

impl Pass {
    // Looks at all proposals, in order of priority.
    pub(crate) fn over_all(alloc: Global, f: &Frozen, cells: &[TallyCell]) -> Result<Pass, NoMemory>
        requires members { IsMap credential_cmp (members_of f.now.start.committee) }
        ensures passed { IfOk result (λ p. ForTallied f.now cells.now (λ s. p ≡ pass_after s (order_of s))) }
        ensures members { IfOk result (λ p. IsMap credential_cmp (members_of p.passing.state.committee)) }
    {
        let mut pass = Pass {
            passing: Passing::begin(alloc, f)?,
            tallies: Listed::new(alloc),
        };
        for priority in 0..TYPES {
            pass = pass.over(alloc, f, cells, priority)?;
        }
        Ok(pass)
    }

    // Looks at the proposals of a priority, in order of submission.
    fn over(
        self,
        alloc: Global,
        f: &Frozen,
        cells: &[TallyCell],
        priority: u8,
    ) -> Result<Pass, NoMemory>
        requires members { IsMap credential_cmp (members_of self.passing.state.committee) }
        ensures passed { IfOk result (LooksAt f.now cells.now self (of_priority priority f.now.proposals)) }
        ensures members { IfOk result (λ p. IsMap credential_cmp (members_of p.passing.state.committee)) }
    {
        let mut pass = self;
        for (a, cell) in f.proposals.as_slice().iter().zip(cells) {
            if a.action.priority() == priority {
                pass = pass.look_at(alloc, f, a, cell)?;
            }
        }
        Ok(pass)
    }

    // Looks at one more proposal.
    fn look_at(
        self,
        alloc: Global,
        f: &Frozen,
        a: &Proposal,
        cell: &TallyCell,
    ) -> Result<Pass, NoMemory>
        requires members { IsMap credential_cmp (members_of self.passing.state.committee) }
        ensures passed { IfOk result (AddsOne f.now cell.now self a.now) }
        ensures members { IfOk result (λ p. IsMap credential_cmp (members_of p.passing.state.committee)) }
    {
        let Pass {
            passing,
            mut tallies,
        } = self;
        let (passing, tally) = passing.look_at(alloc, f, a, *cell)?;
        tallies.push(tally)?;
        Ok(Pass { passing, tallies })
    }
}
