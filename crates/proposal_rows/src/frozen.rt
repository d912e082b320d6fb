//! Frozen proposals, which are live ones with other votes.
ghost use Rattle.std.specs.Prelude.{◌≡◌, IfOk, map, not, option_map, true};
ghost use Rattle.checkpoint_lists.specs.Shown.{frozen_proposal_row};
ghost use Rattle.checkpoint_model.specs.Resumable.{live_of, unvoted};
ghost use Rattle.gov_ids.specs.Orders.{action_id_cmp};
ghost use Rattle.gov_model.specs.Ratified.{ids_of};
ghost use Rattle.maps.specs.Words.{repeats};
ghost use Rattle.shown_lists.specs.Only.{IsOnly};

use crate::votes::votes_of;
use gov_actions::{Proposal, Vote};
use gov_ids::{ActionId, Voter};
use listed::Listed;
use no_memory::NoMemory;
use resume_checks::{Voted, frozen_of_live};
use row_items::{RowKind, items_of};
use std::alloc::Global;

/// The id of a frozen proposal, and the votes behind it, each with the proposal's id.
pub type FrozenRow = (ActionId, Listed<(ActionId, (Voter, Vote))>);

/// The ids of proposals, each followed by the votes on that proposal.
struct FrozenRows;

impl RowKind for FrozenRows {
    type Row = FrozenRow;

    type Item = Voted;

    ghost use Rattle.std.specs.Prelude.{true};
    ghost use Rattle.proposal_rows.specs.Rows.{frozen_row};

    ghost shows = { frozen_row };

    ghost form = { λ v. true };

    fn item_of(alloc: Global, shown: &FrozenRow) -> Result<Option<Voted>, NoMemory> {
        match votes_of(alloc, &shown.0, shown.1.as_slice())? {
            Some(votes) => Ok(Some((shown.0, votes))),
            None => Ok(None),
        }
    }
}

/// The frozen proposals that these rows show, if there are such: live ones of the same ids, in the
/// same order, with these votes. `NoMemory` may come at any time.
pub fn frozen_of(
    alloc: Global,
    live: &[Proposal],
    rows: &[FrozenRow],
) -> Result<Option<Vec<Proposal>>, NoMemory>
    requires { not (repeats action_id_cmp (ids_of live.now)) ≡ true }
    ensures { IfOk result (λ r. IsOnly (λ ps. map unvoted (live_of ps live.now) ≡ map unvoted ps) (map frozen_proposal_row) rows.now
        (option_map (λ v. v.items) r)) }
{
    match items_of::<FrozenRows>(alloc, rows)? {
        Some(voted) => frozen_of_live(alloc, live, voted.as_slice()),
        None => Ok(None),
    }
}
