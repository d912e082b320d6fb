//! Live proposals.
ghost use Rattle.std.specs.Prelude.{◌≡◌, ◌↔◌, IfOk, map, option_map, true, ⊤};
ghost use Rattle.shown_lists.specs.Only.{IsOnly};
ghost use Rattle.proposal_rows.specs.Rows.{IsActionOf, all_rows, whole_row};

use crate::votes::votes_of;
use gov_actions::{Action, Proposal, Vote};
use gov_ids::{ActionId, Voter};
use listed::Listed;
use no_memory::NoMemory;
use row_items::RowKind;
use state_kinds::ProposalRow;
use std::alloc::Global;

/// What the line of a proposal says, and the votes behind it, each with the proposal's id.
pub type VotedRow = (ProposalRow, Listed<(ActionId, (Voter, Vote))>);

/// The action of a proposal, with the proposal's id.
pub type ActionRow = (ActionId, Action);

/// Proposals, each shown without its action, and then by that.
pub struct ProposalRows;

impl RowKind for ProposalRows {
    type Row = (VotedRow, ActionRow);

    type Item = Proposal;

    ghost use Rattle.std.specs.Prelude.{true};
    ghost use Rattle.proposal_rows.specs.Rows.{whole_row};

    ghost shows = { whole_row };

    ghost form = { λ p. true };

    fn item_of(alloc: Global, shown: &(VotedRow, ActionRow)) -> Result<Option<Proposal>, NoMemory> {
        proposal_of(alloc, &shown.0, &shown.1)
    }
}

/// The proposals that these rows show, in their order, if there are such: each row is followed by
/// the votes, and the actions are in a list of their own. `NoMemory` may come at any time.
pub fn proposals_of(
    alloc: Global,
    rows: &[VotedRow],
    actions: &[ActionRow],
) -> Result<Option<Vec<Proposal>>, NoMemory>
    ensures { IfOk result (λ r. IsOnly (λ ps. ⊤) all_rows (rows.now, actions.now) (option_map (λ v. v.items) r)) }
{
    if rows.len() != actions.len() {
        return Ok(None);
    }
    let mut proposals = Vec::new(alloc);
    for (row, action) in rows.iter().zip(actions) {
        match proposal_of(alloc, row, action)? {
            Some(proposal) => proposals.push(proposal)?,
            None => return Ok(None),
        }
    }
    Ok(Some(proposals))
}

/// The proposal that a row shows with this action, if the action and the votes are its own.
/// `NoMemory` may come at any time.
fn proposal_of(
    alloc: Global,
    row: &VotedRow,
    action: &ActionRow,
) -> Result<Option<Proposal>, NoMemory>
    ensures { IfOk result (IsOnly (λ p. true ≡ true) whole_row (row.now, action.now)) }
{
    if !is_action_of(&row.0, action) {
        return Ok(None);
    }
    let Some(votes) = votes_of(alloc, &row.0.id, row.1.as_slice())? else {
        return Ok(None);
    };
    Ok(Some(Proposal {
        id: row.0.id,
        action: action.1.copied(alloc)?,
        deposit: row.0.deposit,
        account: row.0.account,
        expires_after: row.0.expires_after,
        votes,
    }))
}

/// Whether an action is the one of the proposal of this row.
fn is_action_of(row: &ProposalRow, action: &ActionRow) -> bool
    ensures { (result ≡ true) ↔ IsActionOf row.now action.now }
{
    action.0 == row.id && action.1.kind() == row.kind && action.1.previous() == row.previous
}
