ghost use Rattle.std.specs.Prelude.{◌≡◌, ◌+◌, ◌^◌, ◌<◌, map, IfOk};
ghost use Rattle.coin_frac.specs.Totals.{total_of};
ghost use Rattle.freeze.specs.Pools.{delegation_of, pool_by, reward_account};
ghost use Rattle.gov_model.specs.Sides.{default_of_delegation};

use book_records::{DefaultVote, PoolTerms};
use cert_pool::PoolBook;
use coin_frac::{NoMemory, TotalMap};
use gov_ids::{Account, Drep, PoolId};
use listed::Listed;
use snapshots::FrozenPool;
use stake_book::of_accounts::AccountBook;
use std::alloc::Global;

/// The pools of mark as the freeze takes them, in the order of mark.
/// (RatifyEnv of the formal specification)
pub fn frozen_pools(
    alloc: Global,
    mark: &[(PoolId, u64)],
    pools: &PoolBook,
    accounts: &AccountBook,
    deposits: &TotalMap<PoolId>,
) -> Result<Listed<FrozenPool>, NoMemory>
    requires room { total_of mark.now + total_of deposits.now < 2 ^ 64 }
    ensures { IfOk result (λ l. l ≡ map (pool_by pools.now accounts.now.live deposits.now) mark.now) }
{
    let mut frozen = Vec::new(alloc);
    for (p, stake) in mark {
        frozen.push(frozen_pool(*p, *stake, pools, accounts, deposits))?;
    }
    Ok(Listed::from_vec(frozen))
}

// A pool of mark as the freeze takes it.
fn frozen_pool(
    pool: PoolId,
    stake: u64,
    pools: &PoolBook,
    accounts: &AccountBook,
    deposits: &TotalMap<PoolId>,
) -> FrozenPool
    requires room { stake + total_of deposits.now < 2 ^ 64 }
    ensures { result ≡ pool_by pools.now accounts.now.live deposits.now (pool, stake) }
{
    let account = reward_account(pools, &pool);
    FrozenPool {
        pool,
        account,
        stake: stake + deposits.get(&pool),
        default_vote: default_of(delegation_of(accounts, account)),
    }
}

// The reward account of a pool, none where it is not registered.
fn reward_account(pools: &PoolBook, p: &PoolId) -> Option<Account>
    ensures { result ≡ reward_account pools.now p.now }
{
    let terms: PoolTerms = pools.get(p)?.terms;
    Some(terms.account)
}

// The vote delegation of an account, if it is registered and has one.
fn delegation_of(accounts: &AccountBook, account: Option<Account>) -> Option<Drep>
    ensures { result ≡ delegation_of accounts.now.live account }
{
    accounts.get(&account?.cred)?.registered?.drep
}

// The default vote of a vote delegation.
fn default_of(drep: Option<Drep>) -> DefaultVote
    ensures { result ≡ default_of_delegation drep }
{
    match drep {
        Some(Drep::Abstain) => DefaultVote::Abstain,
        Some(Drep::NoConfidence) => DefaultVote::NoConfidence,
        Some(Drep::Registered(_)) | None => DefaultVote::No,
    }
}
