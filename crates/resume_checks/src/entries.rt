//! Accounts and frozen entries.
ghost use Rattle.std.specs.Prelude.{◌≡◌, true};
ghost use Rattle.std.specs.List.{list_all};
ghost use Rattle.checkpoint_model.specs.Resumable.{delegates_to_registered, is_counted_entry};
ghost use Rattle.gov_ids.specs.Orders.{credential_cmp, pool_cmp};
ghost use Rattle.ledger_model.specs.Ledger.{Ledger};
ghost use Rattle.maps.specs.Maps.{has_key};
ghost use Rattle.maps.specs.Words.{none_or};
ghost use Rattle.text_forms.specs.Ids.{is_map};
ghost use Rattle.resume_checks.specs.Delegations.{delegates_within, is_registered};

use crate::order::has_key;
use book_records::{DrepState, Entry, Pool, Registered};
use gov_ids::{Credential, Drep, PoolId};

/// Whether each account delegates to a registered pool and DRep, if at all.
pub fn delegates_to_registered(
    accounts: &[(Credential, Registered)],
    pools: &[(PoolId, Pool)],
    dreps: &[(Credential, DrepState)],
) -> bool
    requires pools { is_map pool_cmp pools.now ≡ true }
    requires dreps { is_map credential_cmp dreps.now ≡ true }
    ensures { (l : Ledger) → result ≡ delegates_to_registered (record l {
      accounts = accounts.now;
      pools = pools.now;
      dreps = dreps.now;
    }) }
{
    all_delegate(accounts, pools, dreps)
}

/// Whether each account delegates to one of these pools and DReps, if at all.
fn all_delegate(
    accounts: &[(Credential, Registered)],
    pools: &[(PoolId, Pool)],
    dreps: &[(Credential, DrepState)],
) -> bool
    requires pools { is_map pool_cmp pools.now ≡ true }
    requires dreps { is_map credential_cmp dreps.now ≡ true }
    ensures { result ≡ list_all (delegates_within pools.now dreps.now) accounts.now }
{
    for (_, account) in accounts {
        if !is_pool(pools, &account.pool) || !is_drep(dreps, &account.drep) {
            return false;
        }
    }
    true
}

/// Whether a pool is one of these, if there is one.
fn is_pool(pools: &[(PoolId, Pool)], pool: &Option<PoolId>) -> bool
    requires { is_map pool_cmp pools.now ≡ true }
    ensures { result ≡ none_or (has_key pool_cmp pools.now) pool.now }
{
    match pool {
        Some(pool) => has_key(pools, pool),
        None => true,
    }
}

/// Whether a DRep is one of these or predefined, if there is one.
fn is_drep(dreps: &[(Credential, DrepState)], drep: &Option<Drep>) -> bool
    requires { is_map credential_cmp dreps.now ≡ true }
    ensures { result ≡ none_or (is_registered dreps.now) drep.now }
{
    match drep {
        Some(Drep::Registered(credential)) => has_key(dreps, credential),
        Some(Drep::Abstain) | Some(Drep::NoConfidence) | None => true,
    }
}

/// Whether each frozen entry is registered or has output stake.
pub fn are_counted_entries(entries: &[(Credential, Entry)]) -> bool
    ensures { result ≡ list_all is_counted_entry entries.now }
{
    entries
        .iter()
        .all(|(_, entry)| entry.registered.is_some() || entry.stake > 0)
}
