//! What is made of the rows of a snapshot.
ghost use Rattle.std.specs.Prelude.{◌≡◌, true, IfOk, option_map};
ghost use Rattle.certificate_lists.specs.Rows.{rows_shown};
ghost use Rattle.committee_rows.specs.Shown.{IsGoverning, governing_shown};
ghost use Rattle.shown_lists.specs.Only.{IsOnly};
ghost use Rattle.shown_lists.specs.Shows.{pools_shown};
ghost use Rattle.snapshot_reader.specs.Told.{IsListed, are_accounts_in, snapshot_by};

use certificate_lists::{GovernedRows, SnapshotRows, VoterRows};
use committee_rows::{Governing, governing_of};
use gov_actions::Proposal;
use gov_ids::{Account, PoolId};
use listed::Listed;
use no_memory::NoMemory;
use proposal_rows::ProposalRows;
use resume_checks::is_map;
use row_items::items_of;
use shown_lists::accounts_of;
use std::alloc::Global;

/// What the rows of a snapshot do not say as it is.
#[derive(Drop)]
pub(crate) struct Made {
    /// The committee, and what cold keys authorized, in order of the keys.
    pub(crate) governing: Governing,
    /// The reward accounts of pools of mark, in order of ids.
    pub(crate) accounts: Listed<(PoolId, Account)>,
    /// In order of submission.
    pub(crate) proposals: Vec<Proposal>,
}

/// The committee and what cold keys authorized, if the rows show them.
fn governing_in(alloc: Global, rows: &GovernedRows) -> Result<Option<Governing>, NoMemory>
    ensures { IfOk result (λ r. IsOnly IsGoverning governing_shown (rows.now.threshold, (rows.now.members, rows.now.hot))
        (option_map (λ g. (g.0, g.1.items)) r)) }
{
    let members = rows.members.as_slice();
    governing_of(alloc, rows.threshold, members, rows.hot.as_slice())
}

/// The reward accounts of pools of mark, if mark is in order and the rows show them.
fn accounts_in(
    alloc: Global,
    rows: &VoterRows,
) -> Result<Option<Listed<(PoolId, Account)>>, NoMemory>
    ensures { IfOk result (λ r. IsOnly (λ accounts. are_accounts_in rows.now.mark accounts ≡ true)
        (pools_shown rows.now.mark) rows.now.pools r) }
{
    let mark = rows.mark.as_slice();
    if !is_map(mark) {
        return Ok(None);
    }
    match accounts_of(alloc, mark, rows.pools.as_slice())? {
        Some(accounts) => Ok(Some(Listed::from_vec(accounts))),
        None => Ok(None),
    }
}

/// What is made of the rows of a snapshot, if they show one. `NoMemory` may come at any time.
pub(crate) fn made_of(alloc: Global, rows: &SnapshotRows) -> Result<Option<Made>, NoMemory>
    ensures { IfOk result (λ r. IsOnly IsListed rows_shown rows.now (option_map (snapshot_by rows.now) r)) }
{
    let Some(governing) = governing_in(alloc, &rows.governed)? else {
        return Ok(None);
    };
    let Some(accounts) = accounts_in(alloc, &rows.voters)? else {
        return Ok(None);
    };
    let Some(proposals) = items_of::<ProposalRows>(alloc, rows.proposals.as_slice())? else {
        return Ok(None);
    };
    Ok(Some(Made {
        governing,
        accounts,
        proposals,
    }))
}
