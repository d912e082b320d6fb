//! The pools of mark as they were frozen.
ghost use Rattle.std.specs.Prelude.{◌≡◌, ◌+◌, ◌^◌, ◌<◌, true, map, IfOk};
ghost use Rattle.coin_frac.specs.Totals.{total_of};
ghost use Rattle.frozen_lists.specs.Pools.{delegation_in, pool_by};
ghost use Rattle.gov_ids.specs.Orders.{credential_cmp, pool_cmp};
ghost use Rattle.gov_model.specs.Sides.{default_of_delegation};
ghost use Rattle.text_forms.specs.Ids.{is_map};

use crate::deposits::registration_in;
use book_records::{DefaultVote, Entry};
use coin_frac::{NoMemory, TotalMap};
use gov_ids::{Account, Credential, Drep, PoolId};
use listed::Listed;
use resume_checks::find;
use snapshots::FrozenPool;
use std::alloc::Global;

/// The pools of mark as they were frozen, in the order of mark.
pub fn frozen_pools(
    alloc: Global,
    entries: &[(Credential, Entry)],
    mark: &[(PoolId, u64)],
    accounts: &[(PoolId, Account)],
    deposits: &TotalMap<PoolId>,
) -> Result<Listed<FrozenPool>, NoMemory>
    requires entries { is_map credential_cmp entries.now ≡ true }
    requires accounts { is_map pool_cmp accounts.now ≡ true }
    requires room { total_of mark.now + total_of deposits.now < 2 ^ 64 }
    ensures { IfOk result (λ l. l ≡ map (pool_by entries.now accounts.now deposits.now) mark.now) }
{
    let mut frozen = Vec::new(alloc);
    for (pool, stake) in mark {
        frozen.push(frozen_pool(*pool, *stake, entries, accounts, deposits))?;
    }
    Ok(Listed::from_vec(frozen))
}

/// A pool of mark as it was frozen.
fn frozen_pool(
    pool: PoolId,
    stake: u64,
    entries: &[(Credential, Entry)],
    accounts: &[(PoolId, Account)],
    deposits: &TotalMap<PoolId>,
) -> FrozenPool
    requires entries { is_map credential_cmp entries.now ≡ true }
    requires accounts { is_map pool_cmp accounts.now ≡ true }
    requires room { stake + total_of deposits.now < 2 ^ 64 }
    ensures { result ≡ pool_by entries.now accounts.now deposits.now (pool, stake) }
{
    let account = find(accounts, &pool).copied();
    FrozenPool {
        pool,
        account,
        stake: stake + deposits.get(&pool),
        default_vote: default_of(delegation_in(entries, account)),
    }
}

/// The vote delegation of an account, if it is registered and has one.
fn delegation_in(entries: &[(Credential, Entry)], account: Option<Account>) -> Option<Drep>
    requires { is_map credential_cmp entries.now ≡ true }
    ensures { result ≡ delegation_in entries.now account }
{
    registration_in(entries, &account?.cred)?.drep
}

/// The default vote of a vote delegation.
fn default_of(drep: Option<Drep>) -> DefaultVote
    ensures { result ≡ default_of_delegation drep }
{
    match drep {
        Some(Drep::Abstain) => DefaultVote::Abstain,
        Some(Drep::NoConfidence) => DefaultVote::NoConfidence,
        Some(Drep::Registered(_)) | None => DefaultVote::No,
    }
}
