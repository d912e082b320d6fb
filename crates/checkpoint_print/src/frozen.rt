//! What is frozen.
ghost use Rattle.std.specs.Prelude.{◌∷◌, ◌++◌, flat_map, map};
ghost use Rattle.bare_lines.specs.Bare.{bare, bare_part};
ghost use Rattle.checkpoint_model.specs.Checkpoint.{frozen_lines, frozen_proposal_lines};
ghost use Rattle.checkpoint_print.specs.Frozen.{frozen_parts};
ghost use Rattle.checkpoint_print.specs.LineWords.{pool_words, treasury_words};
ghost use Rattle.gov_ids.specs.Orders.{credential_cmp};
ghost use Rattle.report.specs.Taking.{HasPut};
ghost use Rattle.text_forms.specs.Snapshots.{expiry_words};
ghost use Rattle.text_model.specs.StateLines.{account_words, hot_words};
ghost use Rattle.view_map.specs.View.{frozen_of};

use crate::frozen_books::{put_dreps, put_entries, put_keys, put_pools};
use crate::frozen_proposals::put_proposals;
use crate::line::CheckpointLine;
use accounts::AccountBook;
use bare_lines::FrozenLine;
use byte_lines::SinkFault;
use report::{LineTaker, put_one};
use snapshots::Frozen;
use state_view::of_ledger_state::LedgerState;

/// Hands over the frozen treasury, entries and DReps.
fn put_stakes<T: LineTaker>(
    to: &mut T,
    text: &mut Vec<u8>,
    frozen: &Frozen,
    book: &AccountBook,
) -> Result<(), SinkFault>
    ensures { HasPut T.with_line T.IsPart 0 (T.taken to.old)
        (treasury_words frozen.now.start.treasury ∷ map account_words (frozen_of credential_cmp book.now)
        ++ map expiry_words frozen.now.dreps)
        (T.taken to.new) (T.faults to.old) (T.faults to.new) result }
{
    let treasury = CheckpointLine::Treasury(frozen.start.treasury);
    put_one(to, text, 0, &treasury)?;
    put_entries(to, text, book)?;
    put_dreps(to, text, frozen.dreps.as_slice())
}

/// Hands over the frozen cold keys, the pools of mark and the frozen proposals.
fn put_voters<T: LineTaker>(
    to: &mut T,
    text: &mut Vec<u8>,
    frozen: &Frozen,
) -> Result<(), SinkFault>
    ensures { HasPut T.with_line T.IsPart 0 (T.taken to.old)
        (map hot_words frozen.now.hot ++ map pool_words frozen.now.pools
        ++ flat_map frozen_proposal_lines frozen.now.proposals)
        (T.taken to.new) (T.faults to.old) (T.faults to.new) result }
{
    put_keys(to, text, frozen.hot.as_slice())?;
    put_pools(to, text, frozen.pools.as_slice())?;
    put_proposals(to, text, frozen.proposals.as_slice())
}

/// Hands over what is frozen, without the word `frozen`.
fn put_parts<T: LineTaker>(to: &mut T, text: &mut Vec<u8>, s: &LedgerState) -> Result<(), SinkFault>
    ensures { HasPut T.with_line T.IsPart 0 (T.taken to.old) (frozen_parts s.now.frozen) (T.taken to.new)
        (T.faults to.old) (T.faults to.new) result }
{
    let frozen = s.frozen();
    put_stakes(to, text, frozen, s.live().stake().book())?;
    put_voters(to, text, frozen)
}

/// Hands over what is frozen, each line with the word `frozen` and without a number.
pub(crate) fn put_frozen<T: LineTaker>(
    to: &mut T,
    text: &mut Vec<u8>,
    s: &LedgerState,
) -> Result<(), SinkFault>
    ensures { HasPut (bare T.with_line) (bare_part T.IsPart) 0 (T.taken to.old) (frozen_lines s.now.frozen)
        (T.taken to.new) (T.faults to.old) (T.faults to.new) result }
{
    let mut passed = Vec::new(*text.allocator());
    let mut frozen = FrozenLine {
        to,
        text: &mut passed,
    };
    put_parts(&mut frozen, text, s)
}
