//! The order of lists, each name once.
ghost use Rattle.std.specs.Prelude.{◌≡◌, true, not, IfOk};
ghost use Rattle.std.specs.List.{list_all};
ghost use Rattle.checkpoint_model.specs.Resumable.{has_book_form, is_pending_form};
ghost use Rattle.gov_ids.specs.Orders.{action_id_cmp, pool_cmp};
ghost use Rattle.gov_model.specs.Ratified.{ids_of};
ghost use Rattle.gov_model.specs.Snapshot.{Snapshot};
ghost use Rattle.ledger_model.specs.Ledger.{Ledger};
ghost use Rattle.maps.specs.Maps.{has_key};
ghost use Rattle.maps.specs.Words.{repeats};
ghost use Rattle.text_forms.specs.Ids.{is_map};
ghost use Rattle.text_forms.specs.Books.{are_rewards, is_stake};
ghost use Rattle.text_forms.specs.Snapshots.{are_stakes, is_snapshot};
ghost use Rattle.resume_checks.specs.Forms.{are_accounts_of, are_in_order, have_frozen_form, have_items_form, with_books, with_lists};

use crate::order::{are_rising, has_key, is_map};
use book_records::{DrepState, Entry, Output, Pool, Registered};
use gov_actions::{HotState, Proposal};
use gov_ids::{Account, Credential, OutRef, PoolId, TxId};
use no_memory::NoMemory;
use std::alloc::Global;
use std::collections::BTreeSet;
use tx_records::Rewards;

/// The lists of a ledger.
#[derive(Clone, Copy)]
pub struct Books<'a> {
    /// By reference.
    pub outputs: &'a [(OutRef, Output)],
    /// The ids of used transactions.
    pub used: &'a [TxId],
    /// By credential.
    pub accounts: &'a [(Credential, Registered)],
    /// By id.
    pub pools: &'a [(PoolId, Pool)],
    /// By credential.
    pub dreps: &'a [(Credential, DrepState)],
    /// By cold key.
    pub hot: &'a [(Credential, HotState)],
    /// In order of submission.
    pub proposals: &'a [Proposal],
}

/// Whether the lists of a ledger are in order, each name once: their form, if each of their items
/// has it. `NoMemory` may come at any time.
pub fn has_book_form(alloc: Global, books: &Books<'_>) -> Result<bool, NoMemory>
    ensures { IfOk result (λ formed. (l : Ledger) → let of_books = with_books books.now l in
        have_items_form of_books ≡ true → formed ≡ has_book_form of_books) }
{
    let in_order = is_map(books.outputs)
        && are_rising(books.used)
        && is_map(books.accounts)
        && is_map(books.pools)
        && is_map(books.dreps)
        && is_map(books.hot);
    Ok(in_order && have_own_ids(alloc, books.proposals)?)
}

/// Whether no two proposals have the same id. `NoMemory` may come at any time.
pub fn have_own_ids(alloc: Global, proposals: &[Proposal]) -> Result<bool, NoMemory>
    ensures { IfOk result (λ own. own ≡ not (repeats action_id_cmp (ids_of proposals.now))) }
{
    let mut ids = BTreeSet::new(alloc);
    for proposal in proposals {
        if !ids.insert(proposal.id)? {
            return Ok(false);
        }
    }
    Ok(true)
}

/// Whether the stakes of pools are in order, each pool once: their form, if each of them has it.
pub fn are_stakes(stakes: &[(PoolId, u64)]) -> bool
    ensures { list_all is_stake stakes.now ≡ true → result ≡ are_stakes stakes.now }
{
    is_map(stakes)
}

/// Whether the rewards of a pending update are in order, each credential once: its form, if its
/// numbers and its rewards have it.
pub fn is_pending_form(update: &Rewards) -> bool
    ensures { are_rewards update.now ≡ true → result ≡ is_pending_form update.now }
{
    is_map(update.rewards.as_slice())
}

/// Whether these are reward accounts of pools of mark, each pool once, in order.
pub fn are_pool_accounts(mark: &[(PoolId, u64)], accounts: &[(PoolId, Account)]) -> bool
    requires { is_map pool_cmp mark.now ≡ true }
    ensures { result ≡ are_accounts_of mark.now accounts.now }
{
    is_map(accounts) && are_of_mark(mark, accounts)
}

/// Whether each of these pools is in mark.
fn are_of_mark(mark: &[(PoolId, u64)], accounts: &[(PoolId, Account)]) -> bool
    requires { is_map pool_cmp mark.now ≡ true }
    ensures { result ≡ list_all (λ p. has_key pool_cmp mark.now p.0) accounts.now }
{
    for (pool, _) in accounts {
        if !has_key(mark, pool) {
            return false;
        }
    }
    true
}

/// The lists of what is frozen.
#[derive(Clone, Copy)]
pub struct FrozenLists<'a> {
    /// By credential.
    pub entries: &'a [(Credential, Entry)],
    /// By credential, with their expiries.
    pub dreps: &'a [(Credential, u64)],
    /// By id, with their stakes in lovelace.
    pub mark: &'a [(PoolId, u64)],
    /// By id of the pool.
    pub pool_accounts: &'a [(PoolId, Account)],
    /// By cold key.
    pub hot: &'a [(Credential, HotState)],
    /// In order of submission.
    pub proposals: &'a [Proposal],
}

/// Whether the lists of what is frozen are in order, each name once: its form, if each of their
/// items and its state have it. `NoMemory` may come at any time.
pub fn is_snapshot(alloc: Global, frozen: &FrozenLists<'_>) -> Result<bool, NoMemory>
    ensures { IfOk result (λ formed. (f : Snapshot) → let of_lists = with_lists frozen.now f in
        have_frozen_form of_lists ≡ true → formed ≡ is_snapshot of_lists) }
{
    Ok(are_in_order(frozen) && have_own_ids(alloc, frozen.proposals)?)
}

/// Whether the lists of what is frozen are in order, each name once, except for the proposals.
fn are_in_order(frozen: &FrozenLists<'_>) -> bool
    ensures { result ≡ are_in_order frozen.now }
{
    is_map(frozen.entries)
        && is_map(frozen.dreps)
        && is_map(frozen.mark)
        && are_pool_accounts(frozen.mark, frozen.pool_accounts)
        && is_map(frozen.hot)
}
