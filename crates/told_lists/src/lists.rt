ghost use Rattle.std.specs.Prelude.{◌≡◌, IfOk, IfSome, map, true};
ghost use Rattle.checkpoint_reader.specs.Gathered.{has_gathered_form};
ghost use Rattle.resumable_lists.specs.Shown.{IsShown};
ghost use Rattle.shown_lists.specs.Only.{IsOnly};
ghost use Rattle.text_forms.specs.Lines.{are_short_lines};
ghost use Rattle.text_forms.specs.Snapshots.{action_words};
ghost use Rattle.told_lists.specs.Parts.{state_of};
ghost use Rattle.told_lists.specs.Told.{IsListed, told_by};

use crate::epoch::{EpochLists, epoch_of};
use crate::governance::Governed;
use crate::live::live_of;
use checkpoint_lists::Amounts;
use checkpoint_reader::Gathered;
use no_memory::NoMemory;
use state_lists::{BookLists, StateLists};
use std::alloc::Global;
use tx_records::Pots;

/// The whole state of these parts, and the number of the line.
fn state_of(
    governed: Governed,
    books: BookLists,
    pots: Pots,
    epoch: EpochLists,
) -> (StateLists, u64)
    ensures { result ≡ state_of pots (governed, books) epoch }
{
    let Governed {
        line,
        counted,
        clock,
        state,
    } = governed;
    let (pending, stakes, frozen) = epoch;
    let lists = StateLists {
        clock,
        counted,
        pots,
        state,
        books,
        pending,
        stakes,
        frozen,
    };
    (lists, line)
}

/// The lists of a state, and the number of the line after which its checkpoint was made, if these
/// lines say them: what they say twice is the same, lists of which other lists are made are in
/// order, the votes on each proposal too, and the version is not below that of Conway. Whether the
/// state is sound is not asked. `NoMemory` may come at any time.
pub fn lists_of(alloc: Global, gathered: Gathered) -> Result<Option<(StateLists, u64)>, NoMemory>
    requires { has_gathered_form gathered ≡ true }
    ensures told { IfOk result (IsOnly (λ x. IsListed x.0) told_by gathered) }
    ensures shown { IfOk result (λ r. IfSome r (λ x. are_short_lines (map action_words x.0.books.proposals) ≡ true → IsShown x.0)) }
{
    let Gathered {
        governance,
        params,
        books,
        stakes,
        amounts,
        actions,
        frozen,
    } = gathered;
    let Amounts {
        pending,
        rewards,
        pots,
        used,
    } = amounts;
    let Some((governed, books)) = live_of(alloc, governance, params, (books, actions, used), &pots)?
    else {
        return Ok(None);
    };
    let rows = ((pending, rewards), stakes, frozen);
    let Some(epoch) = epoch_of(alloc, governed.clock.epoch, &books.proposals, rows)? else {
        return Ok(None);
    };
    Ok(Some(state_of(governed, books, pots, epoch)))
}
