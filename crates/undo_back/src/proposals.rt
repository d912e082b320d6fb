ghost use Rattle.std.specs.Prelude.{◌≡◌, OnOk, map, take};
ghost use Rattle.gov_model.specs.Proposals.{with_change};
ghost use Rattle.undo_back.specs.Steps.{with_old_vote};
ghost use Rattle.undo_model.specs.Undone.{with_old_votes};

use gov_actions::Vote;
use gov_ids::{ActionId, Voter};
use no_memory::NoMemory;
use proposal_store::ProposalStore;

/// Keeps the first `n` proposals and puts old votes on them back.
/// After `NoMemory` the caller drops the store.
pub(crate) fn restore_proposals(
    proposals: &mut ProposalStore,
    n: u64,
    votes: &[((ActionId, Voter), Option<Vote>)],
) -> Result<(), NoMemory>
    ensures { OnOk result (proposals.new ≡ map (with_old_votes votes.now) (take n proposals.old)) }
{
    proposals.keep_first(n);
    restore_votes(proposals, votes)
}

// Puts old votes back.
fn restore_votes(
    proposals: &mut ProposalStore,
    votes: &[((ActionId, Voter), Option<Vote>)],
) -> Result<(), NoMemory>
    ensures { OnOk result (proposals.new ≡ map (with_old_votes votes.now) proposals.old) }
{
    for ((id, voter), to) in votes {
        restore_vote(proposals, id, *voter, *to)?;
    }
    Ok(())
}

// The vote of a voter on a proposal becomes `to`.
fn restore_vote(
    proposals: &mut ProposalStore,
    id: &ActionId,
    voter: Voter,
    to: Option<Vote>,
) -> Result<(), NoMemory>
    ensures { OnOk result (proposals.new ≡ with_change id.now (with_old_vote voter to) proposals.old) }
{
    match to {
        Some(vote) => proposals.vote(id, voter, vote),
        None => {
            proposals.unvote(id, &voter);
            Ok(())
        }
    }
}
