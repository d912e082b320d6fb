//! Votes, and what cold keys authorized.

use crate::words::{read_hot_state, read_vote};
use gov_actions::{HotState, Vote};
use gov_ids::{ActionId, Credential, Voter, read_action_id, read_credential, read_voter};
use line_kinds::{LineKind, word};
use no_memory::NoMemory;
use state_lines::{push_hot_line, push_vote_line};

/// The lines of what cold keys authorized. (Own)
pub struct HotLines;

impl LineKind for HotLines {
    type Item = (Credential, HotState);

    ghost use Rattle.text_forms.specs.Books.{is_hot};
    ghost use Rattle.text_model.specs.StateLines.{hot_words};
    ghost use Rattle.book_kinds.specs.Books.{hot_in};

    ghost words = { hot_words };

    ghost form = { is_hot };

    ghost reading = { hot_in };

    fn laws() {}

    fn read(texts: &[&str]) -> Option<(Credential, HotState)> {
        let cold = read_credential(word(texts, 1))?;
        let state = read_hot_state(word(texts, 2))?;
        Some((cold, state))
    }

    fn push(hot: &(Credential, HotState), out: &mut Vec<u8>) -> Result<(), NoMemory> {
        push_hot_line(out, 0, &hot.0, &hot.1)
    }
}

/// The lines of votes, each with the id of its action. (Own)
pub struct VoteLines;

impl LineKind for VoteLines {
    type Item = (ActionId, (Voter, Vote));

    ghost use Rattle.book_kinds.specs.Books.{is_vote_line, vote_in, vote_line};

    ghost words = { vote_line };

    ghost form = { is_vote_line };

    ghost reading = { vote_in };

    fn laws() {}

    fn read(texts: &[&str]) -> Option<(ActionId, (Voter, Vote))> {
        let id = read_action_id(word(texts, 1))?;
        let voter = read_voter(word(texts, 2))?;
        let vote = read_vote(word(texts, 3))?;
        Some((id, (voter, vote)))
    }

    fn push(vote: &(ActionId, (Voter, Vote)), out: &mut Vec<u8>) -> Result<(), NoMemory> {
        push_vote_line(out, 0, &vote.0, &vote.1)
    }
}
