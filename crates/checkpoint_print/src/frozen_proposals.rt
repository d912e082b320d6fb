//! The frozen proposals with their votes.
ghost use Rattle.std.specs.Prelude.{flat_map, map};
ghost use Rattle.checkpoint_model.specs.Checkpoint.{frozen_proposal_lines};
ghost use Rattle.report.specs.Taking.{HasPut};
ghost use Rattle.text_model.specs.StateLines.{words_of_vote};

use crate::line::CheckpointLine;
use crate::source::{LineSource, put_left};
use byte_lines::SinkFault;
use gov_actions::{Proposal, Vote};
use gov_ids::{ActionId, Voter};
use report::{LineTaker, put_one};
use state_lines::StateLine;

/// The votes on a proposal that are left.
#[derive(Drop)]
struct FrozenVotes<'a> {
    id: &'a ActionId,
    rest: &'a [(Voter, Vote)],
}

impl<'a> LineSource for FrozenVotes<'a> {
    ghost use Rattle.std.specs.Prelude.{map};
    ghost use Rattle.text_model.specs.StateLines.{words_of_vote};

    type Line = StateLine<'a>;

    ghost left = { λ s. map (words_of_vote s.id.now) s.rest.now };

    fn next_line(&mut self) -> Option<StateLine<'a>> {
        let (cast, others) = self.rest.split_first()?;
        self.rest = others;
        Some(StateLine::Vote(self.id, cast))
    }
}

/// Hands over the votes on the proposal of this id, in order of voter.
fn put_votes<T: LineTaker>(
    to: &mut T,
    text: &mut Vec<u8>,
    id: &ActionId,
    votes: &[(Voter, Vote)],
) -> Result<(), SinkFault>
    ensures { HasPut T.with_line T.IsPart 0 (T.taken to.old) (map (words_of_vote id.now) votes.now) (T.taken to.new)
        (T.faults to.old) (T.faults to.new) result }
{
    put_left(to, text, FrozenVotes { id, rest: votes })
}

/// Hands over a proposal with its votes.
fn put_proposal<T: LineTaker>(
    to: &mut T,
    text: &mut Vec<u8>,
    proposal: &Proposal,
) -> Result<(), SinkFault>
    ensures { HasPut T.with_line T.IsPart 0 (T.taken to.old) (frozen_proposal_lines proposal.now) (T.taken to.new)
        (T.faults to.old) (T.faults to.new) result }
{
    put_one(to, text, 0, &CheckpointLine::Proposal(proposal.id))?;
    put_votes(to, text, &proposal.id, proposal.votes.as_slice())
}

/// Hands over the frozen proposals, in order of submission, each with its votes.
pub(crate) fn put_proposals<T: LineTaker>(
    to: &mut T,
    text: &mut Vec<u8>,
    proposals: &[Proposal],
) -> Result<(), SinkFault>
    ensures { HasPut T.with_line T.IsPart 0 (T.taken to.old) (flat_map frozen_proposal_lines proposals.now)
        (T.taken to.new) (T.faults to.old) (T.faults to.new) result }
{
    for proposal in proposals {
        put_proposal(to, text, proposal)?;
    }
    Ok(())
}
