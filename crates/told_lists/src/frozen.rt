//! What is frozen.
ghost use Rattle.std.specs.Prelude.{◌≡◌, IfOk, map, not, true};
ghost use Rattle.checkpoint_lists.specs.Shown.{frozen_proposal_row};
ghost use Rattle.gov_ids.specs.Orders.{action_id_cmp, pool_cmp};
ghost use Rattle.text_forms.specs.of_gov_model.Ratified.{ids_of};
ghost use Rattle.maps.specs.Words.{repeats};
ghost use Rattle.resume_checks.specs.Forms.{are_accounts_of};
ghost use Rattle.shown_lists.specs.Only.{IsOnly};
ghost use Rattle.shown_lists.specs.Shows.{pools_shown};
ghost use Rattle.text_forms.specs.Ids.{is_map};
ghost use Rattle.told_lists.specs.Parts.{AreFrozen, IsFrozen, frozen_shown};

use crate::books::have_votes_in_order;
use checkpoint_lists::FrozenRows;
use gov_actions::Proposal;
use gov_ids::{Account, PoolId};
use listed::Listed;
use no_memory::NoMemory;
use proposal_rows::FrozenRow;
use shown_lists::accounts_of;
use state_lists::FrozenState;
use std::alloc::Global;

/// The reward accounts of pools of mark, if these lines show them. `NoMemory` may come at any time.
fn pool_accounts_of(
    alloc: Global,
    mark: &Listed<(PoolId, u64)>,
    rows: Listed<(PoolId, Option<Account>)>,
) -> Result<Option<Listed<(PoolId, Account)>>, NoMemory>
    requires { is_map pool_cmp mark.now ≡ true }
    ensures { IfOk result (IsOnly (λ accounts. are_accounts_of mark.now accounts ≡ true) (pools_shown mark.now) rows) }
{
    match accounts_of(alloc, mark.as_slice(), rows.as_slice())? {
        Some(accounts) => Ok(Some(Listed::from_vec(accounts))),
        None => Ok(None),
    }
}

/// The frozen proposals that these rows show, if there are such: live ones with other votes, in
/// order on each. `NoMemory` may come at any time.
fn proposals_of(
    alloc: Global,
    live: &Listed<Proposal>,
    rows: Listed<FrozenRow>,
) -> Result<Option<Listed<Proposal>>, NoMemory>
    requires { not (repeats action_id_cmp (ids_of live.now)) ≡ true }
    ensures { IfOk result (IsOnly (AreFrozen live.now) (map frozen_proposal_row) rows) }
{
    let Some(proposals) = proposal_rows::frozen_of(alloc, live.as_slice(), rows.as_slice())? else {
        return Ok(None);
    };
    if !have_votes_in_order(proposals.as_slice()) {
        return Ok(None);
    }
    Ok(Some(Listed::from_vec(proposals)))
}

/// What is frozen beside this mark and these live proposals, if these lines show such. `NoMemory`
/// may come at any time.
pub(crate) fn frozen_of(
    alloc: Global,
    rows: FrozenRows,
    mark: &Listed<(PoolId, u64)>,
    live: &Listed<Proposal>,
) -> Result<Option<FrozenState>, NoMemory>
    requires mark { is_map pool_cmp mark.now ≡ true }
    requires ids { not (repeats action_id_cmp (ids_of live.now)) ≡ true }
    ensures { IfOk result (IsOnly (IsFrozen mark.now live.now) (frozen_shown mark.now) rows) }
{
    let FrozenRows {
        treasury,
        entries,
        dreps,
        hot,
        pools,
        proposals,
    } = rows;
    let Some(pool_accounts) = pool_accounts_of(alloc, mark, pools)? else {
        return Ok(None);
    };
    let Some(proposals) = proposals_of(alloc, live, proposals)? else {
        return Ok(None);
    };
    Ok(Some(FrozenState {
        treasury,
        entries,
        dreps,
        pool_accounts,
        hot,
        proposals,
    }))
}
