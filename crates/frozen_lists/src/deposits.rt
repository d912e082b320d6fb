//! The deposits of proposals, by pool and by account.
ghost use Rattle.std.specs.Prelude.{◌≡◌, ◌+◌, ◌^◌, ◌<◌, ◌≤◌, true, IfOk, OnOk, option_and_then, unwrap_or};
ghost use Rattle.coin_frac.specs.Totals.{total_of};
ghost use Rattle.frozen_lists.specs.Pools.{paid_with, registration_in};
ghost use Rattle.gov_ids.specs.Orders.{credential_cmp, pool_cmp};
ghost use Rattle.gov_ids.specs.declared.Credential.{Credential};
ghost use Rattle.gov_ids.specs.declared.PoolId.{PoolId};
ghost use Rattle.gov_model.specs.Proposals.{deposits_of};
ghost use Rattle.gov_model.specs.Snapshot.{Snapshot};
ghost use Rattle.gov_model.specs.Stake.{deposits_to};
ghost use Rattle.maps.specs.Maps.{value_at, with_value};
ghost use Rattle.text_forms.specs.Ids.{is_map};

use book_records::{Entry, Registered};
use coin_frac::{NoMemory, TotalMap};
use gov_actions::Proposal;
use gov_ids::{Credential, PoolId};
use resume_checks::find;
use std::alloc::Global;

/// The registration of a credential.
pub fn registration_in(
    entries: &[(Credential, Entry)],
    credential: &Credential,
) -> Option<Registered>
    requires { is_map credential_cmp entries.now ≡ true }
    ensures { result ≡ registration_in entries.now credential.now }
{
    find(entries, credential)?.registered
}

/// The pool to which a registered credential delegates.
fn pool_of(entries: &[(Credential, Entry)], credential: &Credential) -> Option<PoolId>
    requires { is_map credential_cmp entries.now ≡ true }
    ensures { result ≡ option_and_then (λ r. r.pool) (registration_in entries.now credential.now) }
{
    registration_in(entries, credential)?.pool
}

/// The deposits of proposals, in lovelace, by the pool to which the return account delegates.
pub fn deposits_by_pool(
    alloc: Global,
    entries: &[(Credential, Entry)],
    proposals: &[Proposal],
) -> Result<TotalMap<PoolId>, NoMemory>
    requires in_order { is_map credential_cmp entries.now ≡ true }
    requires fits { deposits_of proposals.now < 2 ^ 64 }
    ensures amounts { IfOk result (λ m. (p : PoolId) →
        unwrap_or (value_at pool_cmp m p) 0 ≡ paid_with entries.now proposals.now p) }
    ensures total { IfOk result (λ m. total_of m ≤ deposits_of proposals.now) }
{
    let mut deposits = TotalMap::new(alloc);
    for proposal in proposals {
        if let Some(pool) = pool_of(entries, &proposal.account.cred) {
            add(&mut deposits, pool, proposal.deposit)?;
        }
    }
    Ok(deposits)
}

/// The deposits of proposals, in lovelace, by the credential to which they return. `NoMemory` may
/// come at any time.
pub fn deposits_by_account(
    alloc: Global,
    proposals: &[Proposal],
) -> Result<TotalMap<Credential>, NoMemory>
    requires { deposits_of proposals.now < 2 ^ 64 }
    ensures amounts { IfOk result (λ m. (s : Snapshot) (c : Credential) → s.proposals ≡ proposals.now →
        unwrap_or (value_at credential_cmp m c) 0 ≡ deposits_to s c) }
    ensures total { IfOk result (λ m. total_of m ≡ deposits_of proposals.now) }
{
    let mut deposits = TotalMap::new(alloc);
    for proposal in proposals {
        add(&mut deposits, proposal.account.cred, proposal.deposit)?;
    }
    Ok(deposits)
}

/// Adds to the amount at a key.
fn add<K: Copy + Ord>(deposits: &mut TotalMap<K>, k: K, n: u64) -> Result<(), NoMemory>
    requires fits { total_of deposits.old + n < 2 ^ 64 }
    ensures amounts { OnOk result (deposits.new ≡
        with_value K.cmp k (unwrap_or (value_at K.cmp deposits.old k) 0 + n) deposits.old) }
    ensures total { OnOk result (total_of deposits.new ≡ total_of deposits.old + n) }
{
    let sum = deposits.get(&k) + n;
    deposits.put(k, sum)?;
    Ok(())
}
