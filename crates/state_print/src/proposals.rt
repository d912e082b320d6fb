//! The lines of the proposals with their votes.
ghost use Rattle.std.specs.Prelude.{◌≡◌, [], ◌∷◌, flat_map, map, option_to_list, slice_get};
ghost use Rattle.state_lines.specs.StateTexts.{proposed_words};
ghost use Rattle.report.specs.Taking.{HasPut};
ghost use Rattle.text_model.specs.StateLines.{proposal_lines, proposal_words, vote_words};

use byte_lines::SinkFault;
use gov_actions::Vote;
use gov_ids::Voter;
use proposal_store::{LiveProposal, ProposalStore};
use report::{LineTaker, put_one};
use state_lines::{Proposed, StateLine};

/// Hands over the line of a vote on a proposal.
fn put_vote<T: LineTaker>(
    to: &mut T,
    text: &mut Vec<u8>,
    line: u64,
    proposal: &LiveProposal,
    cast: &(Voter, Vote),
) -> Result<(), SinkFault>
    ensures { HasPut T.with_line T.IsPart line (T.taken to.old) (vote_words proposal.now cast.now ∷ [])
        (T.taken to.new) (T.faults to.old) (T.faults to.new) result }
{
    let id = proposal.id();
    put_one(to, text, line, &StateLine::Vote(&id, cast))
}

/// Hands over the lines of the votes on a proposal.
fn put_votes<T: LineTaker>(
    to: &mut T,
    text: &mut Vec<u8>,
    line: u64,
    proposal: &LiveProposal,
) -> Result<(), SinkFault>
    ensures { HasPut T.with_line T.IsPart line (T.taken to.old) (map (vote_words proposal.now) proposal.now.votes)
        (T.taken to.new) (T.faults to.old) (T.faults to.new) result }
{
    for (voter, vote) in proposal.votes() {
        put_vote(to, text, line, proposal, &(*voter, *vote))?;
    }
    Ok(())
}

/// A proposal except its votes.
fn proposed(proposal: &LiveProposal) -> Proposed<'_>
    ensures { proposed_words result ≡ proposal_words proposal.now }
{
    Proposed {
        id: proposal.id(),
        action: proposal.action(),
        deposit: proposal.deposit(),
        account: proposal.account(),
        expires_after: proposal.expires_after(),
    }
}

/// Hands over the lines of a proposal and its votes, as a print of a state has them. (Own)
pub fn put_proposal<T: LineTaker>(
    to: &mut T,
    text: &mut Vec<u8>,
    line: u64,
    proposal: &LiveProposal,
) -> Result<(), SinkFault>
    ensures { HasPut T.with_line T.IsPart line (T.taken to.old) (proposal_lines proposal.now)
        (T.taken to.new) (T.faults to.old) (T.faults to.new) result }
{
    put_one(to, text, line, &StateLine::Proposal(proposed(proposal)))?;
    put_votes(to, text, line, proposal)
}

/// Hands over the lines of the proposal at an index, where there is one.
fn put_at<T: LineTaker>(
    to: &mut T,
    text: &mut Vec<u8>,
    line: u64,
    proposals: &ProposalStore,
    i: u64,
) -> Result<(), SinkFault>
    ensures { HasPut T.with_line T.IsPart line (T.taken to.old)
        (flat_map proposal_lines (option_to_list (slice_get proposals.now i)))
        (T.taken to.new) (T.faults to.old) (T.faults to.new) result }
{
    match proposals.at(i) {
        None => Ok(()),
        Some(proposal) => put_proposal(to, text, line, proposal),
    }
}

/// Hands over the lines of the proposals, in order of submission.
pub(crate) fn put_proposals<T: LineTaker>(
    to: &mut T,
    text: &mut Vec<u8>,
    line: u64,
    proposals: &ProposalStore,
) -> Result<(), SinkFault>
    ensures { HasPut T.with_line T.IsPart line (T.taken to.old) (flat_map proposal_lines proposals.now)
        (T.taken to.new) (T.faults to.old) (T.faults to.new) result }
{
    for i in 0..proposals.len() {
        put_at(to, text, line, proposals, i)?;
    }
    Ok(())
}
