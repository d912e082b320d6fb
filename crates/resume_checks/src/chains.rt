//! The chains of proposals.
ghost use Rattle.std.specs.Prelude.{◌≡◌, IfOk, OnOk};
ghost use Rattle.std.specs.List.{list_all};
ghost use Rattle.checkpoint_model.specs.Resumable.{are_chained};
ghost use Rattle.gov_model.specs.Lineage.{may_follow};
ghost use Rattle.ledger_model.specs.Ledger.{Ledger};
ghost use Rattle.maps.specs.Words.{some_and, with_fronts};
ghost use Rattle.resume_checks.specs.Purposes.{follows_among, has_purpose, with_purpose};

use gov_actions::{Action, LastIds, Proposal, Purpose};
use gov_ids::ActionId;
use no_memory::NoMemory;
use std::alloc::Global;
use std::collections::BTreeMap;

/// The purposes of the proposals so far, by id; an id that comes again keeps its first purpose.
type Purposes = BTreeMap<ActionId, Option<Purpose>>;

/// Whether each proposal with a purpose names its last enacted action or an earlier live proposal
/// of it.
pub fn are_chained(alloc: Global, proposals: &[Proposal], last: &LastIds) -> Result<bool, NoMemory>
    ensures { IfOk result (λ chained. (l : Ledger) → chained ≡ are_chained (record l {
      state = record l.state { last = last.now };
      proposals = proposals.now;
    })) }
{
    all_follow(alloc, proposals, last)
}

/// Whether each proposal with a purpose names its last enacted action or an earlier one of these.
fn all_follow(alloc: Global, proposals: &[Proposal], last: &LastIds) -> Result<bool, NoMemory>
    ensures { IfOk result (λ chained. chained ≡ list_all (λ p. may_follow p.0 last.now p.1.action) (with_fronts proposals.now)) }
{
    let mut purposes = BTreeMap::new(alloc);
    for proposal in proposals {
        if !may_follow(&purposes, last, &proposal.action) {
            return Ok(false);
        }
        add(&mut purposes, proposal)?;
    }
    Ok(true)
}

/// Adds the purpose of a proposal, if its id is new.
fn add(purposes: &mut Purposes, proposal: &Proposal) -> Result<(), NoMemory>
    ensures { OnOk result (purposes.new.entries ≡ with_purpose proposal.now purposes.old.entries) }
{
    if !purposes.contains_key(&proposal.id) {
        purposes.insert(proposal.id, proposal.action.purpose())?;
    }
    Ok(())
}

/// Whether an action with a purpose names its last enacted action or one of these of the purpose.
fn may_follow(purposes: &Purposes, last: &LastIds, action: &Action) -> bool
    ensures { result ≡ follows_among purposes.now.entries last.now action.now }
{
    let Some(purpose) = action.purpose() else {
        return true;
    };
    let previous = action.previous();
    previous == last.of(purpose) || is_one_of(purposes, purpose, previous)
}

/// Whether an action is named, and it is one of these, of this purpose.
fn is_one_of(purposes: &Purposes, purpose: Purpose, previous: Option<ActionId>) -> bool
    ensures { result ≡ some_and (has_purpose purposes.now.entries purpose) previous }
{
    let Some(id) = previous else {
        return false;
    };
    match purposes.get(&id) {
        Some(other) => *other == Some(purpose),
        None => false,
    }
}
