//! The live state.
ghost use Rattle.std.specs.Prelude.{IfOk};
ghost use Rattle.shown_lists.specs.Only.{IsOnly};
ghost use Rattle.told_lists.specs.Parts.{IsLive, live_shown};

use crate::books::books_of;
use crate::governance::{Governed, governed_of};
use checkpoint_lists::{Books, Governance};
use gov_ids::TxId;
use listed::Listed;
use no_memory::NoMemory;
use pparams::Params;
use proposal_rows::ActionRow;
use state_lists::BookLists;
use std::alloc::Global;
use tx_records::Pots;

/// The lines of the books, the actions of proposals, and the used ids.
type BookRows = (Books, Listed<ActionRow>, Listed<TxId>);

/// The clock, the state and the books that these lines show, if there are such that hold what the
/// pots say. `NoMemory` may come at any time.
pub(crate) fn live_of(
    alloc: Global,
    governance: Governance,
    params: Params,
    rows: BookRows,
    pots: &Pots,
) -> Result<Option<(Governed, BookLists)>, NoMemory>
    ensures { IfOk result (IsOnly (IsLive pots.now) (live_shown pots.now) ((governance, params, pots.now.treasury), rows)) }
{
    let Some((governed, hot)) = governed_of(alloc, governance, params, pots.treasury)? else {
        return Ok(None);
    };
    let (books, actions, used) = rows;
    let Some(books) = books_of(alloc, books, (actions, used, hot), pots)? else {
        return Ok(None);
    };
    Ok(Some((governed, books)))
}
