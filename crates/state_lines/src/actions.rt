//! The lines of proposals, of the snapshots of pools and of the pending reward update.
ghost use Rattle.std.specs.Prelude.{◌≡◌, ◌++◌, OnOk};
ghost use Rattle.text_model.specs.ActionWords.{vote_text};
ghost use Rattle.text_model.specs.StateLines.{none_pending_words, noted_fees_words, pending_reward_words, pending_words, snapshot_words, words_of_vote};
ghost use Rattle.text_model.specs.Words.{line_of};
ghost use Rattle.state_lines.specs.StateTexts.{proposed_words};
ghost use Rattle.state_lines.specs.SnapshotNames.{snapshot_text};

use crate::states::id_word;
use coin_frac::NoMemory;
use gov_actions::{Action, Vote};
use gov_ids::{Account, ActionId, Credential, PoolId, Voter};
use report::{Word, kind_name, push_line};
use tx_records::Rewards;

/// A vote.
fn vote_name(vote: Vote) -> &'static str
    ensures { result.now ≡ vote_text vote }
{
    match vote {
        Vote::Yes => "yes",
        Vote::No => "no",
        Vote::Abstain => "abstain",
    }
}

/// A proposal except its votes. (GovActionState of the formal specification)
#[derive(Clone, Copy)]
pub struct Proposed<'a> {
    /// The transaction that proposed it, and its index there.
    pub id: ActionId,
    /// What it asks for.
    pub action: &'a Action,
    /// What it paid, in lovelace.
    pub deposit: u64,
    /// The return account of the deposit.
    pub account: Account,
    /// The last epoch in which it may be voted on.
    pub expires_after: u64,
}

/// Appends the line of a proposal. After an out-of-memory error the buffer may hold anything. (Own)
pub fn push_proposal_line(
    out: &mut Vec<u8>,
    line: u64,
    proposed: &Proposed<'_>,
) -> Result<(), NoMemory>
    ensures { OnOk result (out.new.items ≡ out.old.items ++ line_of line (proposed_words proposed.now)) }
{
    let previous = proposed.action.previous();
    push_line(
        out,
        line,
        &[
            Word::Text("proposal"),
            Word::Action(&proposed.id),
            Word::Text(kind_name(proposed.action.kind())),
            Word::Text("deposit"),
            Word::Number(proposed.deposit),
            Word::Text("return"),
            Word::Account(&proposed.account),
            Word::Text("expires"),
            Word::Number(proposed.expires_after),
            Word::Text("previous"),
            id_word(&previous),
        ],
    )
}

/// Appends the line of a vote on the proposal of this id. (Own)
/// After an out-of-memory error the buffer may hold anything.
pub fn push_vote_line<'a>(
    out: &mut Vec<u8>,
    line: u64,
    id: &'a ActionId,
    cast: &'a (Voter, Vote),
) -> Result<(), NoMemory>
    ensures { OnOk result (out.new.items ≡ out.old.items ++ line_of line (words_of_vote id.now cast.now)) }
{
    push_line(
        out,
        line,
        &[
            Word::Text("vote"),
            Word::Action(id),
            Word::Voter(&cast.0),
            Word::Text(vote_name(cast.1)),
        ],
    )
}

/// The boundary of a snapshot of pools, among the last three. (SNAP of the formal specification)
#[derive(Clone, Copy)]
pub enum SnapshotName {
    /// The last.
    Mark,
    /// The one before it.
    Set,
    /// The one before that.
    Go,
}

impl SnapshotName {
    /// The word as a line has it.
    fn text(&self) -> &'static str
        ensures { result.now ≡ snapshot_text self.now }
    {
        match self {
            SnapshotName::Mark => "mark",
            SnapshotName::Set => "set",
            SnapshotName::Go => "go",
        }
    }
}

/// Appends the line of a pool's stake in a snapshot, in lovelace. (Own)
/// After an out-of-memory error the buffer may hold anything.
pub fn push_snapshot_line(
    out: &mut Vec<u8>,
    line: u64,
    name: SnapshotName,
    stake: &(PoolId, u64),
) -> Result<(), NoMemory>
    ensures { OnOk result (out.new.items ≡ out.old.items ++ line_of line (snapshot_words (snapshot_text name) stake.now)) }
{
    push_line(
        out,
        line,
        &[
            Word::Text("snapshot"),
            Word::Text(name.text()),
            Word::Pool(&stake.0),
            Word::Number(stake.1),
        ],
    )
}

/// Appends the line of the fee pot at the last boundary, in lovelace. (Own)
/// After an out-of-memory error the buffer may hold anything.
pub fn push_noted_fees_line(out: &mut Vec<u8>, line: u64, fees: u64) -> Result<(), NoMemory>
    ensures { OnOk result (out.new.items ≡ out.old.items ++ line_of line (noted_fees_words fees)) }
{
    push_line(
        out,
        line,
        &[
            Word::Text("snapshot"),
            Word::Text("fees"),
            Word::Number(fees),
        ],
    )
}

/// Appends the line of the pending reward update. (Own)
/// After an out-of-memory error the buffer may hold anything.
pub fn push_pending_line(out: &mut Vec<u8>, line: u64, update: &Rewards) -> Result<(), NoMemory>
    ensures { OnOk result (out.new.items ≡ out.old.items ++ line_of line (pending_words update.now)) }
{
    push_line(
        out,
        line,
        &[
            Word::Text("pending"),
            Word::Text("reserves"),
            Word::Number(update.from_reserves),
            Word::Text("fees"),
            Word::Number(update.from_fees),
            Word::Text("treasury"),
            Word::Number(update.to_treasury),
        ],
    )
}

/// Appends the line that says that no reward update is pending. (Own)
/// After an out-of-memory error the buffer may hold anything.
pub fn push_none_pending_line(out: &mut Vec<u8>, line: u64) -> Result<(), NoMemory>
    ensures { OnOk result (out.new.items ≡ out.old.items ++ line_of line none_pending_words) }
{
    push_line(out, line, &[Word::Text("pending"), Word::Text("none")])
}

/// Appends the line of a pending reward, in lovelace. (Own)
/// After an out-of-memory error the buffer may hold anything.
pub fn push_pending_reward_line(
    out: &mut Vec<u8>,
    line: u64,
    reward: &(Credential, u64),
) -> Result<(), NoMemory>
    ensures { OnOk result (out.new.items ≡ out.old.items ++ line_of line (pending_reward_words reward.now)) }
{
    push_line(
        out,
        line,
        &[
            Word::Text("pending"),
            Word::Text("reward"),
            Word::Credential(&reward.0),
            Word::Number(reward.1),
        ],
    )
}
