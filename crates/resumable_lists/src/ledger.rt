//! The tests of the ledger of a state.
ghost use Rattle.std.specs.Prelude.{◌≡◌, ◌&&◌, true, IfOk};
ghost use Rattle.checkpoint_model.specs.Resumable.{are_chained, delegates_to_registered, has_book_form, holds_supply, is_timed, is_within_dormant_bound, uses_ids};
ghost use Rattle.ledger_model.specs.Supply.{total_of};
ghost use Rattle.state_lists.specs.Worlds.{ledger_of_lists};
ghost use Rattle.resumable_lists.specs.Shown.{IsShown};
ghost use Rattle.resumable_lists.specs.Sound.{is_sound_ledger};

use no_memory::NoMemory;
use state_lists::StateLists;
use std::alloc::Global;

/// Whether the epoch is that of the slot.
fn is_timed(state: &StateLists) -> bool
    ensures { result ≡ is_timed (ledger_of_lists state.now) }
{
    resume_checks::is_timed(&state.clock)
}

/// Whether dormant epochs and the expiries of DReps are within their bounds.
fn is_within_dormant_bound(state: &StateLists) -> bool
    ensures { result ≡ is_within_dormant_bound (ledger_of_lists state.now) }
{
    let books = &state.books;
    resume_checks::is_within_dormant_bound(
        &state.clock,
        books.proposals.as_slice(),
        books.dreps.as_slice(),
    )
}

/// Whether each account delegates to a registered pool and DRep, if at all.
fn delegates_to_registered(state: &StateLists) -> bool
    requires { has_book_form (ledger_of_lists state.now) ≡ true }
    ensures { result ≡ delegates_to_registered (ledger_of_lists state.now) }
{
    let books = &state.books;
    resume_checks::delegates_to_registered(
        books.accounts.as_slice(),
        books.pools.as_slice(),
        books.dreps.as_slice(),
    )
}

/// Whether the pots hold the supply, which is within its limit.
fn holds_supply(state: &StateLists, supply: u64) -> bool
    requires shown { IsShown state.now }
    requires supply { supply ≡ total_of state.now.pots }
    ensures { result ≡ holds_supply (ledger_of_lists state.now) }
{
    resume_checks::holds_supply(&state.pots, supply)
}

/// Whether the transaction of each output and of each proposal is a used one.
fn uses_ids(state: &StateLists) -> bool
    requires { has_book_form (ledger_of_lists state.now) ≡ true }
    ensures { result ≡ uses_ids (ledger_of_lists state.now) }
{
    let books = &state.books;
    resume_checks::uses_ids(
        books.outputs.as_slice(),
        books.proposals.as_slice(),
        books.used.as_slice(),
    )
}

/// Whether each proposal with a purpose names its last enacted action or an earlier live one.
fn are_chained(alloc: Global, state: &StateLists) -> Result<bool, NoMemory>
    ensures { IfOk result (λ chained. chained ≡ are_chained (ledger_of_lists state.now)) }
{
    resume_checks::are_chained(alloc, state.books.proposals.as_slice(), &state.state.last)
}

/// Whether the ledger passes all of its tests but that of chains.
fn is_sound_apart(state: &StateLists, supply: u64) -> bool
    requires shown { IsShown state.now }
    requires form { has_book_form (ledger_of_lists state.now) ≡ true }
    requires supply { supply ≡ total_of state.now.pots }
    ensures { let l = ledger_of_lists state.now in
        result ≡ (is_timed l && is_within_dormant_bound l && delegates_to_registered l && holds_supply l && uses_ids l) }
{
    is_timed(state)
        && is_within_dormant_bound(state)
        && delegates_to_registered(state)
        && holds_supply(state, supply)
        && uses_ids(state)
}

/// Whether the ledger passes all of its tests. `NoMemory` may come at any time.
pub(crate) fn is_sound_ledger(
    alloc: Global,
    state: &StateLists,
    supply: u64,
) -> Result<bool, NoMemory>
    requires shown { IsShown state.now }
    requires form { has_book_form (ledger_of_lists state.now) ≡ true }
    requires supply { supply ≡ total_of state.now.pots }
    ensures { IfOk result (λ sound. sound ≡ is_sound_ledger (ledger_of_lists state.now)) }
{
    Ok(is_sound_apart(state, supply) && are_chained(alloc, state)?)
}
