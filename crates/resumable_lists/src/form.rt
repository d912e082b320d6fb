//! The form of a state: its numbers and the order of its lists.
ghost use Rattle.std.specs.Prelude.{◌≡◌, ◌<◌, ◌^◌, ◌&&◌, true, IfOk};
ghost use Rattle.std.specs.List.{list_all};
ghost use Rattle.std.specs.Option.{SomeIff};
ghost use Rattle.checkpoint_model.specs.Resumable.{has_book_form, has_plain_form, is_pending_form};
ghost use Rattle.gov_model.specs.Snapshot.{Snapshot};
ghost use Rattle.ledger_model.specs.Ledger.{Ledger};
ghost use Rattle.ledger_model.specs.Supply.{total_of};
ghost use Rattle.maps.specs.Words.{none_or};
ghost use Rattle.resume_checks.specs.Forms.{with_books, with_lists};
ghost use Rattle.text_forms.specs.Books.{are_rewards, is_stake};
ghost use Rattle.text_forms.specs.Snapshots.{are_stakes, is_snapshot};
ghost use Rattle.state_lists.specs.Worlds.{frozen_of_lists, ledger_of_lists, world_of_lists};
ghost use Rattle.resumable_lists.specs.Shown.{IsShown};
ghost use Rattle.resumable_lists.specs.Sound.{is_sound_form};

use gov_ids::PoolId;
use listed::Listed;
use no_memory::NoMemory;
use resume_checks::{Books, FrozenLists};
use snapshots::Snapshots;
use state_lists::{BookLists, StateLists};
use std::alloc::Global;
use tx_records::{Pots, Rewards};

/// The sum of the pots, in lovelace, if it fits in 64 bits.
pub(crate) fn supply_of(pots: &Pots) -> Option<u64>
    ensures { SomeIff result (total_of pots.now < 2 ^ 64) (total_of pots.now) }
{
    let held = u128::from(pots.outputs) + u128::from(pots.deposits) + u128::from(pots.rewards);
    let given = u128::from(pots.fees) + u128::from(pots.donations);
    u64::try_from(held + given + u128::from(pots.treasury) + u128::from(pots.reserves)).ok()
}

/// Whether the numbers of the ledger are in their ranges.
fn has_plain_form(state: &StateLists, supply: u64) -> bool
    requires { supply ≡ total_of state.now.pots }
    ensures { result ≡ has_plain_form (ledger_of_lists state.now) }
{
    resume_checks::has_plain_form(&state.clock, supply, &state.pots)
}

/// Whether the rewards of a pending update are in order, if there is one.
fn is_pending_form(pending: &Option<Rewards>) -> bool
    requires { none_or are_rewards pending.now ≡ true }
    ensures { result ≡ none_or is_pending_form pending.now }
{
    match pending {
        Some(update) => resume_checks::is_pending_form(update),
        None => true,
    }
}

/// Whether the stakes of pools are in order.
fn are_in_order(stakes: &Listed<(PoolId, u64)>) -> bool
    requires { list_all is_stake stakes.now ≡ true }
    ensures { result ≡ are_stakes stakes.now }
{
    resume_checks::are_stakes(stakes.as_slice())
}

/// Whether the stakes of pools at each boundary are in order.
fn are_stakes(stakes: &Snapshots) -> bool
    requires mark { list_all is_stake stakes.now.mark ≡ true }
    requires set { list_all is_stake stakes.now.set ≡ true }
    requires go { list_all is_stake stakes.now.go ≡ true }
    ensures { result ≡ (are_stakes stakes.now.mark && are_stakes stakes.now.set && are_stakes stakes.now.go) }
{
    are_in_order(&stakes.mark) && are_in_order(&stakes.set) && are_in_order(&stakes.go)
}

/// The lists of the ledger, as slices.
fn books_of(lists: &BookLists) -> Books<'_>
    ensures { (l : Ledger) → with_books result l ≡ record l {
      outputs = lists.now.outputs;
      used = lists.now.used;
      accounts = lists.now.accounts;
      pools = lists.now.pools;
      dreps = lists.now.dreps;
      hot = lists.now.hot;
      proposals = lists.now.proposals;
    } }
{
    Books {
        outputs: lists.outputs.as_slice(),
        used: lists.used.as_slice(),
        accounts: lists.accounts.as_slice(),
        pools: lists.pools.as_slice(),
        dreps: lists.dreps.as_slice(),
        hot: lists.hot.as_slice(),
        proposals: lists.proposals.as_slice(),
    }
}

/// The lists of what is frozen, as slices.
fn frozen_of(state: &StateLists) -> FrozenLists<'_>
    ensures { (f : Snapshot) → with_lists result f ≡ record f {
      entries = state.now.frozen.entries;
      dreps = state.now.frozen.dreps;
      mark = state.now.stakes.mark;
      pool_accounts = state.now.frozen.pool_accounts;
      hot = state.now.frozen.hot;
      proposals = state.now.frozen.proposals;
    } }
{
    FrozenLists {
        entries: state.frozen.entries.as_slice(),
        dreps: state.frozen.dreps.as_slice(),
        mark: state.stakes.mark.as_slice(),
        pool_accounts: state.frozen.pool_accounts.as_slice(),
        hot: state.frozen.hot.as_slice(),
        proposals: state.frozen.proposals.as_slice(),
    }
}

/// Whether the lists of the ledger are in order, each name once.
fn has_book_form(alloc: Global, state: &StateLists) -> Result<bool, NoMemory>
    requires { IsShown state.now }
    ensures { IfOk result (λ formed. formed ≡ has_book_form (ledger_of_lists state.now)) }
{
    resume_checks::has_book_form(alloc, &books_of(&state.books))
}

/// Whether the lists of what is frozen are in order, each name once.
fn is_snapshot(alloc: Global, state: &StateLists) -> Result<bool, NoMemory>
    requires { IsShown state.now }
    ensures { IfOk result (λ formed. formed ≡ is_snapshot (frozen_of_lists state.now)) }
{
    resume_checks::is_snapshot(alloc, &frozen_of(state))
}

/// Whether the pending update, if there is one, and the stakes of pools are in order.
fn are_amounts_in_order(state: &StateLists) -> bool
    requires { IsShown state.now }
    ensures { result ≡ (none_or is_pending_form state.now.pending
        && (are_stakes state.now.stakes.mark && are_stakes state.now.stakes.set && are_stakes state.now.stakes.go)) }
{
    is_pending_form(&state.pending) && are_stakes(&state.stakes)
}

/// Whether the state has the form of the formats, if its items have it. `NoMemory` may come at any
/// time.
pub(crate) fn is_sound_form(
    alloc: Global,
    state: &StateLists,
    supply: u64,
) -> Result<bool, NoMemory>
    requires shown { IsShown state.now }
    requires supply { supply ≡ total_of state.now.pots }
    ensures { IfOk result (λ formed. formed ≡ is_sound_form (world_of_lists state.now)) }
{
    let plain = has_plain_form(state, supply);
    let books = has_book_form(alloc, state)?;
    let amounts = are_amounts_in_order(state);
    let frozen = is_snapshot(alloc, state)?;
    Ok(plain && books && amounts && frozen)
}
