//! Votes on a proposal.
ghost use Rattle.std.specs.Prelude.{◌≡◌, IfOk, map, ⊤};
ghost use Rattle.std.specs.List.{list_all};
ghost use Rattle.gov_ids.specs.Same.{same_action};
ghost use Rattle.shown_lists.specs.Only.{IsOnly};

use gov_actions::Vote;
use gov_ids::{ActionId, Voter};
use listed::Listed;
use no_memory::NoMemory;
use std::alloc::Global;

/// A vote, with the id of the proposal.
pub(crate) type VoteRow = (ActionId, (Voter, Vote));

/// The votes that these rows show, if each is on the proposal of this id. `NoMemory` may come at
/// any time.
pub(crate) fn votes_of(
    alloc: Global,
    id: &ActionId,
    rows: &[VoteRow],
) -> Result<Option<Listed<(Voter, Vote)>>, NoMemory>
    ensures { IfOk result (IsOnly (λ votes. ⊤) (map (λ v. (id.now, v))) rows.now) }
{
    if !are_on(id, rows) {
        return Ok(None);
    }
    let votes = casts(alloc, rows)?;
    Ok(Some(Listed::from_vec(votes)))
}

/// Whether each of these votes is on the proposal of this id.
fn are_on(id: &ActionId, rows: &[VoteRow]) -> bool
    ensures { result ≡ list_all (λ r. same_action r.0 id.now) rows.now }
{
    rows.iter().all(|row| is_on(id, row))
}

/// Whether a vote is on the proposal of this id.
fn is_on(id: &ActionId, row: &VoteRow) -> bool
    ensures { result ≡ same_action row.now.0 id.now }
{
    row.0 == *id
}

/// Votes without the ids.
fn casts(alloc: Global, rows: &[VoteRow]) -> Result<Vec<(Voter, Vote)>, NoMemory>
    ensures { IfOk result (λ v. v.items ≡ map (λ r. r.1) rows.now) }
{
    Ok(rows.iter().map(|row| row.1).collect(alloc)?)
}
