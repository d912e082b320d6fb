//! The frozen proposals, which are live ones with other votes.
ghost use Rattle.std.specs.Prelude.{◌≡◌, List, true, not, IfOk};
ghost use Rattle.std.specs.Option.{IfNone, IfSome};
ghost use Rattle.gov_actions.specs.declared.action.Proposal.{Proposal};
ghost use Rattle.gov_ids.specs.Orders.{action_id_cmp};
ghost use Rattle.gov_model.specs.Ratified.{ids_of};
ghost use Rattle.maps.specs.Words.{repeats};
ghost use Rattle.resume_checks.specs.Frozen.{IsFrozenOf, matched, with_votes};

use gov_actions::{Proposal, Vote};
use gov_ids::{ActionId, Voter};
use listed::Listed;
use no_memory::NoMemory;
use std::alloc::Global;

/// The id of a frozen proposal, with its votes.
pub type Voted = (ActionId, Listed<(Voter, Vote)>);

/// The frozen proposals with these ids and votes: the live ones of the same ids, in the same order,
/// with these votes. None if there are none. `NoMemory` may come at any time.
pub fn frozen_of_live(
    alloc: Global,
    live: &[Proposal],
    voted: &[Voted],
) -> Result<Option<Vec<Proposal>>, NoMemory>
    requires { not (repeats action_id_cmp (ids_of live.now)) ≡ true }
    ensures some { IfOk result (λ frozen. IfSome frozen (λ ps. IsFrozenOf live.now voted.now ps.items)) }
    ensures none { IfOk result (λ frozen. IfNone frozen ((ps : List Proposal) → IsFrozenOf live.now voted.now ps → ⊥)) }
{
    let frozen = matched(alloc, live, voted)?;
    if frozen.len() == voted.len() {
        Ok(Some(frozen))
    } else {
        Ok(None)
    }
}

/// The live proposals whose ids come next among these, with their votes.
fn matched(alloc: Global, live: &[Proposal], voted: &[Voted]) -> Result<Vec<Proposal>, NoMemory>
    ensures { IfOk result (λ ps. ps.items ≡ matched live.now voted.now) }
{
    let mut frozen = Vec::new(alloc);
    for proposal in live {
        if let Some(next) = voted.get(frozen.len()) {
            if next.0 == proposal.id {
                frozen.push(with_votes(alloc, proposal, &next.1)?)?;
            }
        }
    }
    Ok(frozen)
}

/// A copy of a proposal with these votes.
fn with_votes(
    alloc: Global,
    proposal: &Proposal,
    votes: &Listed<(Voter, Vote)>,
) -> Result<Proposal, NoMemory>
    ensures { IfOk result (λ p. p ≡ with_votes proposal.now votes.now) }
{
    let action = proposal.action.copied(alloc)?;
    let votes = Vec::from_slice(alloc, votes.as_slice())?;
    Ok(Proposal {
        id: proposal.id,
        action,
        deposit: proposal.deposit,
        account: proposal.account,
        expires_after: proposal.expires_after,
        votes: Listed::from_vec(votes),
    })
}
