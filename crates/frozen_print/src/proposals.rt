//! The proposals with their votes and their actions.
ghost use Rattle.std.specs.Prelude.{◌≡◌, ◌++◌, [], ◌∷◌, OnOk, flat_map, map};
ghost use Rattle.certificate_model.specs.Certificate.{whole_proposal_lines};
ghost use Rattle.report.specs.Taking.{HasPut};
ghost use Rattle.state_lines.specs.StateTexts.{proposed_words};
ghost use Rattle.text_forms.specs.Snapshots.{action_words};
ghost use Rattle.text_model.specs.StateLines.{proposal_words, vote_words};
ghost use Rattle.text_model.specs.Words.{line_of};

use action_lines::push_action;
use byte_lines::SinkFault;
use gov_actions::{Proposal, Vote};
use gov_ids::{ActionId, Voter};
use item_lines::{ItemLines, put_items};
use no_memory::NoMemory;
use report::{LineTaker, Printed, Word, end_line, push_digits, push_parts, put_one};
use state_lines::{Proposed, StateLine};

// The line of a proposal's action.
#[derive(Drop)]
struct ActionLine<'a> {
    proposal: &'a Proposal,
}

// Appends the line of a proposal's action.
fn push_action_line(out: &mut Vec<u8>, line: u64, p: &Proposal) -> Result<(), NoMemory>
    ensures { OnOk result (out.new.items ≡ out.old.items ++ line_of line (action_words p.now)) }
{
    push_digits(out, line)?;
    push_parts(out, &[Word::Text("action"), Word::Action(&p.id)])?;
    out.push(b' ')?;
    push_action(out, &p.action)?;
    end_line(out)
}

impl Printed for ActionLine<'_> {
    ghost use Rattle.text_forms.specs.Snapshots.{action_words};

    ghost words = { λ l. action_words l.proposal.now };

    fn push_line(&self, out: &mut Vec<u8>, line: u64) -> Result<(), NoMemory> {
        push_action_line(out, line, self.proposal)
    }
}

// The votes on the proposal of an id.
#[derive(Drop)]
struct Votes<'a> {
    id: &'a ActionId,
}

impl<'a> ItemLines for Votes<'a> {
    ghost use Rattle.std.specs.Prelude.{⊤, [], ◌∷◌};
    ghost use Rattle.text_model.specs.StateLines.{words_of_vote};

    type Item = (Voter, Vote);

    ghost can = { λ _. ⊤ };

    ghost lines = { λ p cast. words_of_vote p.id.now cast ∷ [] };

    fn put_item<T: LineTaker>(
        &self,
        to: &mut T,
        text: &mut Vec<u8>,
        line: u64,
        item: &(Voter, Vote),
    ) -> Result<(), SinkFault> {
        put_one(to, text, line, &StateLine::Vote(self.id, item))
    }
}

// Hands over the lines of the votes on a proposal.
fn put_votes<T: LineTaker>(
    to: &mut T,
    text: &mut Vec<u8>,
    line: u64,
    p: &Proposal,
) -> Result<(), SinkFault>
    ensures { HasPut T.with_line T.IsPart line (T.taken to.old) (map (vote_words p.now) p.now.votes)
        (T.taken to.new) (T.faults to.old) (T.faults to.new) result }
{
    put_items(to, text, line, &Votes { id: &p.id }, p.votes.as_slice())
}

// A proposal except its votes.
fn proposed(p: &Proposal) -> Proposed<'_>
    ensures { proposed_words result ≡ proposal_words p.now }
{
    Proposed {
        id: p.id,
        action: &p.action,
        deposit: p.deposit,
        account: p.account,
        expires_after: p.expires_after,
    }
}

// Hands over the lines of a proposal: itself, its votes, its action.
fn put_proposal<T: LineTaker>(
    to: &mut T,
    text: &mut Vec<u8>,
    line: u64,
    p: &Proposal,
) -> Result<(), SinkFault>
    ensures { HasPut T.with_line T.IsPart line (T.taken to.old) (whole_proposal_lines p.now)
        (T.taken to.new) (T.faults to.old) (T.faults to.new) result }
{
    put_one(to, text, line, &StateLine::Proposal(proposed(p)))?;
    put_votes(to, text, line, p)?;
    put_one(to, text, line, &ActionLine { proposal: p })
}

// Proposals with their votes and their actions.
#[derive(Drop)]
struct Proposals;

impl ItemLines for Proposals {
    ghost use Rattle.std.specs.Prelude.{⊤};
    ghost use Rattle.certificate_model.specs.Certificate.{whole_proposal_lines};

    type Item = Proposal;

    ghost can = { λ _. ⊤ };

    ghost lines = { λ _ p. whole_proposal_lines p };

    fn put_item<T: LineTaker>(
        &self,
        to: &mut T,
        text: &mut Vec<u8>,
        line: u64,
        item: &Proposal,
    ) -> Result<(), SinkFault> {
        put_proposal(to, text, line, item)
    }
}

// Hands over the lines of these proposals, in order.
pub(crate) fn put_proposals<T: LineTaker>(
    to: &mut T,
    text: &mut Vec<u8>,
    line: u64,
    proposals: &[Proposal],
) -> Result<(), SinkFault>
    ensures { HasPut T.with_line T.IsPart line (T.taken to.old) (flat_map whole_proposal_lines proposals.now)
        (T.taken to.new) (T.faults to.old) (T.faults to.new) result }
{
    put_items(to, text, line, &Proposals, proposals)
}
