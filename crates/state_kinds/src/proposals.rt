//! Proposals, without their actions.
ghost use Rattle.std.specs.Prelude.{◌≡◌, ◌++◌, OnOk};
ghost use Rattle.gov_ids.specs.Spelling.{action_id_text};
ghost use Rattle.gov_actions.specs.declared.action.Proposal.{Proposal};
ghost use Rattle.text_model.specs.StateLines.{proposal_words};
ghost use Rattle.text_model.specs.Words.{line_of, or_none};
ghost use Rattle.report.specs.WordTexts.{word_text};
ghost use Rattle.state_kinds.specs.Proposals.{kind_of_text, proposal_line, row_of};

use crate::governance::read_id_or_none;
use gov_actions::ActionKind;
use gov_ids::{Account, ActionId, read_account, read_action_id};
use line_kinds::{LineKind, read_number, word};
use no_memory::NoMemory;
use report::{Word, kind_name, push_line};

/// What the line of a proposal says. (Own)
#[derive(Clone, Copy)]
pub struct ProposalRow {
    /// The transaction that proposed it, and its index there.
    pub id: ActionId,
    /// The type of its action.
    pub kind: ActionKind,
    /// What it paid, in lovelace.
    pub deposit: u64,
    /// The return account of the deposit.
    pub account: Account,
    /// The last epoch in which it may be voted on.
    pub expires_after: u64,
    /// The action that it follows.
    pub previous: Option<ActionId>,
}

/// Does nothing. A law: the line of a proposal is that of its row.
pub fn rows_are_proposals()
    ensures { (p : Proposal) → proposal_line (row_of p) ≡ proposal_words p }
{}

/// Reads the type of an action.
fn read_kind(text: &str) -> Option<ActionKind>
    ensures { result ≡ kind_of_text text.now }
{
    match text {
        "NoConfidence" => Some(ActionKind::NoConfidence),
        "UpdateCommittee" => Some(ActionKind::UpdateCommittee),
        "NewConstitution" => Some(ActionKind::NewConstitution),
        "HardForkInitiation" => Some(ActionKind::HardForkInitiation),
        "ParameterChange" => Some(ActionKind::ParameterChange),
        "TreasuryWithdrawals" => Some(ActionKind::TreasuryWithdrawals),
        "Info" => Some(ActionKind::Info),
        _ => None,
    }
}

/// The id of an action, or none.
fn id_word(id: &Option<ActionId>) -> Word<'_>
    ensures { word_text result ≡ or_none action_id_text id.now }
{
    match id {
        None => Word::Text("none"),
        Some(id) => Word::Action(id),
    }
}

/// Appends the line of a proposal.
fn push_row(out: &mut Vec<u8>, row: &ProposalRow) -> Result<(), NoMemory>
    ensures { OnOk result (out.new.items ≡ out.old.items ++ line_of 0 (proposal_line row.now)) }
{
    push_line(
        out,
        0,
        &[
            Word::Text("proposal"),
            Word::Action(&row.id),
            Word::Text(kind_name(row.kind)),
            Word::Text("deposit"),
            Word::Number(row.deposit),
            Word::Text("return"),
            Word::Account(&row.account),
            Word::Text("expires"),
            Word::Number(row.expires_after),
            Word::Text("previous"),
            id_word(&row.previous),
        ],
    )
}

/// The lines of proposals, without their actions and votes. (Own)
pub struct ProposalLines;

impl LineKind for ProposalLines {
    type Item = ProposalRow;

    ghost use Rattle.state_kinds.specs.Proposals.{is_proposal_line, proposal_in, proposal_line};

    ghost words = { proposal_line };

    ghost form = { is_proposal_line };

    ghost reading = { proposal_in };

    fn laws() {}

    fn read(texts: &[&str]) -> Option<ProposalRow> {
        let id = read_action_id(word(texts, 1))?;
        let kind = read_kind(word(texts, 2))?;
        let deposit = read_number(word(texts, 4))?;
        let account = read_account(word(texts, 6))?;
        let expires_after = read_number(word(texts, 8))?;
        let previous = read_id_or_none(word(texts, 10))?;
        Some(ProposalRow {
            id,
            kind,
            deposit,
            account,
            expires_after,
            previous,
        })
    }

    fn push(row: &ProposalRow, out: &mut Vec<u8>) -> Result<(), NoMemory> {
        push_row(out, row)
    }
}
