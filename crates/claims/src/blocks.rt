//! The parts and the verdict of each proposal, in order of priority.
ghost use Rattle.std.specs.Prelude.{◌≡◌, [], ◌∷◌, IfOk};
ghost use Rattle.std.specs.List.{All};
ghost use Rattle.certificate_model.specs.Certificate.{claim_of_proposal};
ghost use Rattle.claims.specs.Blocks.{IsPassed, all_blocks};
ghost use Rattle.drep_pulser.specs.Facts.{IsCountedOf};
ghost use Rattle.gov_actions.specs.declared.action.Proposal.{Proposal};
ghost use Rattle.gov_actions.specs.Kinds.{in_order_of_priority};
ghost use Rattle.gov_ids.specs.Orders.{credential_cmp, voter_cmp};
ghost use Rattle.gov_model.specs.Sides.{members_of};
ghost use Rattle.gov_model.specs.Snapshot.{Snapshot};
ghost use Rattle.maps.specs.Maps.{IsMap};
ghost use Rattle.ratify.specs.Passes.{of_priority};
ghost use Rattle.report.specs.Taking.{HasPut};
ghost use Rattle.snapshots.specs.Frozen.{frozen_copy_of};
ghost use Rattle.tally.specs.Counted.{CanBeCounted, ForSnapshot};

use crate::parts::put_parts;
use crate::verdicts::VerdictLine;
use byte_lines::SinkFault;
use drep_pulser::Counted;
use gov_actions::{Proposal, Tally};
use ratify::{Passing, whole_is_ratified};
use report::{LineTaker, put_one};
use snapshots::Frozen;
use std::alloc::Global;
use tally::cell_of;

// The number of action types, and so of priorities.
const TYPES: u8 = 7;

// Hands over the parts and the verdict of a proposal with this tally.
fn put_claim<T: LineTaker>(
    to: &mut T,
    text: &mut Vec<u8>,
    line: u64,
    f: &Frozen,
    c: &Counted,
    a: &Proposal,
    tally: &Tally,
) -> Result<(), SinkFault>
    requires { IsMap voter_cmp a.now.votes }
    ensures { (s : Snapshot) → f.now ≡ frozen_copy_of s → IsCountedOf s c.now →
        HasPut T.with_line T.IsPart line (T.taken to.old) (claim_of_proposal s (a.now, tally.now)) (T.taken to.new)
        (T.faults to.old) (T.faults to.new) result }
{
    put_parts(to, text, line, f, c, a)?;
    put_one(to, text, line, &VerdictLine { tally })
}

// Looks at the next proposal, and hands over its parts and its verdict.
fn put_block<T: LineTaker>(
    alloc: Global,
    to: &mut T,
    text: &mut Vec<u8>,
    line: u64,
    f: &Frozen,
    c: &Counted,
    passing: Passing,
    a: &Proposal,
) -> Result<Passing, SinkFault>
    requires counted { CanBeCounted f.now c.now }
    requires voters { IsMap voter_cmp a.now.votes }
    requires members { IsMap credential_cmp (members_of passing.state.committee) }
    ensures passed { ForSnapshot f.now c.now (λ s. IsPassed T.with_line T.IsPart line (T.taken to.old) (T.taken to.new)
        (T.faults to.old) (T.faults to.new) s passing (a.now ∷ []) result) }
    ensures members { IfOk result (λ p. IsMap credential_cmp (members_of p.state.committee)) }
{
    let counts = cell_of(f, c, a);
    let (passing, tally) = passing.look_at(alloc, f, a, counts)?;
    put_claim(to, text, line, f, c, a, &tally)?;
    Ok(passing)
}

// Does this for a proposal of the priority; it passes over any other.
fn put_proposal<T: LineTaker>(
    alloc: Global,
    to: &mut T,
    text: &mut Vec<u8>,
    line: u64,
    f: &Frozen,
    c: &Counted,
    passing: Passing,
    a: &Proposal,
    priority: u8,
) -> Result<Passing, SinkFault>
    requires counted { CanBeCounted f.now c.now }
    requires voters { IsMap voter_cmp a.now.votes }
    requires members { IsMap credential_cmp (members_of passing.state.committee) }
    ensures passed { ForSnapshot f.now c.now (λ s. IsPassed T.with_line T.IsPart line (T.taken to.old) (T.taken to.new)
        (T.faults to.old) (T.faults to.new) s passing (of_priority priority (a.now ∷ [])) result) }
    ensures members { IfOk result (λ p. IsMap credential_cmp (members_of p.state.committee)) }
{
    if a.action.priority() != priority {
        return Ok(passing);
    }
    put_block(alloc, to, text, line, f, c, passing, a)
}

// Does this for each of these proposals that is of the priority, in order.
fn put_priority<T: LineTaker>(
    alloc: Global,
    to: &mut T,
    text: &mut Vec<u8>,
    line: u64,
    f: &Frozen,
    c: &Counted,
    passing: Passing,
    proposals: &[Proposal],
    priority: u8,
) -> Result<Passing, SinkFault>
    requires counted { CanBeCounted f.now c.now }
    requires voters { All (λ (a : Proposal). IsMap voter_cmp a.votes) proposals.now }
    requires members { IsMap credential_cmp (members_of passing.state.committee) }
    ensures passed { ForSnapshot f.now c.now (λ s. IsPassed T.with_line T.IsPart line (T.taken to.old) (T.taken to.new)
        (T.faults to.old) (T.faults to.new) s passing (of_priority priority proposals.now) result) }
    ensures members { IfOk result (λ p. IsMap credential_cmp (members_of p.state.committee)) }
{
    let mut passing = passing;
    for a in proposals {
        passing = put_proposal(alloc, to, text, line, f, c, passing, a, priority)?;
    }
    Ok(passing)
}

// Does this for each of these proposals, in order of priority.
fn put_priorities<T: LineTaker>(
    alloc: Global,
    to: &mut T,
    text: &mut Vec<u8>,
    line: u64,
    f: &Frozen,
    c: &Counted,
    passing: Passing,
    proposals: &[Proposal],
) -> Result<Passing, SinkFault>
    requires counted { CanBeCounted f.now c.now }
    requires voters { All (λ (a : Proposal). IsMap voter_cmp a.votes) proposals.now }
    requires members { IsMap credential_cmp (members_of passing.state.committee) }
    ensures { ForSnapshot f.now c.now (λ s. IsPassed T.with_line T.IsPart line (T.taken to.old) (T.taken to.new)
        (T.faults to.old) (T.faults to.new) s passing (in_order_of_priority proposals.now) result) }
{
    let mut passing = passing;
    for priority in 0..TYPES {
        passing = put_priority(alloc, to, text, line, f, c, passing, proposals, priority)?;
    }
    Ok(passing)
}

// Hands over the parts and the verdict of each proposal, in order of priority.
pub(crate) fn put_blocks<T: LineTaker>(
    alloc: Global,
    to: &mut T,
    text: &mut Vec<u8>,
    line: u64,
    f: &Frozen,
    c: &Counted,
) -> Result<(), SinkFault>
    requires { CanBeCounted f.now c.now }
    ensures { ForSnapshot f.now c.now (λ s. HasPut T.with_line T.IsPart line (T.taken to.old) (all_blocks s) (T.taken to.new)
        (T.faults to.old) (T.faults to.new) result) }
{
    whole_is_ratified();
    let passing = Passing::begin(alloc, f)?;
    put_priorities(alloc, to, text, line, f, c, passing, f.proposals.as_slice())?;
    Ok(())
}
