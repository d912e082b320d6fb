//! The reward accounts of pools of mark.
ghost use Rattle.std.specs.Prelude.{◌≡◌, ◌↔◌, ◌++◌, [], ◌∷◌, true, IfOk, OnOk, option_map};
ghost use Rattle.gov_ids.specs.Orders.{pool_cmp};
ghost use Rattle.maps.specs.Maps.{value_at};
ghost use Rattle.resume_checks.specs.Forms.{are_accounts_of};
ghost use Rattle.shown_lists.specs.Only.{IsOnly};
ghost use Rattle.shown_lists.specs.Present.{present_entries};
ghost use Rattle.shown_lists.specs.Shows.{pools_shown};
ghost use Rattle.text_forms.specs.Ids.{is_map};

use gov_ids::{Account, PoolId};
use no_memory::NoMemory;
use resume_checks::{are_pool_accounts, find};
use std::alloc::Global;

/// The reward accounts of pools of mark, by id, if these lines show each pool of mark with its
/// account. `NoMemory` may come at any time.
pub fn accounts_of(
    alloc: Global,
    mark: &[(PoolId, u64)],
    pools: &[(PoolId, Option<Account>)],
) -> Result<Option<Vec<(PoolId, Account)>>, NoMemory>
    requires { is_map pool_cmp mark.now ≡ true }
    ensures { IfOk result (λ r. IsOnly (λ accounts. are_accounts_of mark.now accounts ≡ true) (pools_shown mark.now) pools.now
        (option_map (λ v. v.items) r)) }
{
    let accounts = present(alloc, pools)?;
    if are_pool_accounts(mark, accounts.as_slice()) && are_shown(mark, accounts.as_slice(), pools) {
        Ok(Some(accounts))
    } else {
        Ok(None)
    }
}

/// The pools that have an account, each with it.
fn present(
    alloc: Global,
    pools: &[(PoolId, Option<Account>)],
) -> Result<Vec<(PoolId, Account)>, NoMemory>
    ensures { IfOk result (λ v. v.items ≡ present_entries pools.now) }
{
    let mut accounts = Vec::new(alloc);
    for shown in pools {
        add(&mut accounts, shown)?;
    }
    Ok(accounts)
}

/// Adds a pool with its account, if it has one.
fn add(
    accounts: &mut Vec<(PoolId, Account)>,
    shown: &(PoolId, Option<Account>),
) -> Result<(), NoMemory>
    ensures { OnOk result (accounts.new.items ≡ accounts.old.items ++ present_entries (shown.now ∷ [])) }
{
    if let Some(account) = shown.1 {
        accounts.push((shown.0, account))?;
    }
    Ok(())
}

/// Whether each pool of mark is shown with its account among these.
fn are_shown(
    mark: &[(PoolId, u64)],
    accounts: &[(PoolId, Account)],
    pools: &[(PoolId, Option<Account>)],
) -> bool
    requires { is_map pool_cmp accounts.now ≡ true }
    ensures { (result ≡ true) ↔ (pools_shown mark.now accounts.now ≡ pools.now) }
{
    if mark.len() != pools.len() {
        return false;
    }
    for place in 0..mark.len() {
        if !is_shown(&mark[place].0, accounts, &pools[place]) {
            return false;
        }
    }
    true
}

/// Whether a pool is shown with its account among these.
fn is_shown(
    pool: &PoolId,
    accounts: &[(PoolId, Account)],
    shown: &(PoolId, Option<Account>),
) -> bool
    requires { is_map pool_cmp accounts.now ≡ true }
    ensures { (result ≡ true) ↔ ((pool.now, value_at pool_cmp accounts.now pool.now) ≡ shown.now) }
{
    *pool == shown.0 && find(accounts, pool).copied() == shown.1
}
