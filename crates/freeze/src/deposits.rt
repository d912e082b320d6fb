ghost use Rattle.std.specs.Prelude.{◌≡◌, ◌+◌, ◌^◌, ◌<◌, ◌≤◌, IfOk, OnOk, option_and_then, unwrap_or};
ghost use Rattle.coin_frac.specs.Totals.{total_of};
ghost use Rattle.freeze.specs.Deposits.{paid_by, paid_with};
ghost use Rattle.gov_ids.specs.Orders.{credential_cmp, pool_cmp};
ghost use Rattle.gov_ids.specs.declared.Credential.{Credential};
ghost use Rattle.gov_ids.specs.declared.PoolId.{PoolId};
ghost use Rattle.gov_model.specs.Proposals.{deposits_of};
ghost use Rattle.maps.specs.Maps.{value_at, with_value};
ghost use Rattle.stake_book.specs.Stakes.{registered_at};

use coin_frac::{NoMemory, TotalMap};
use gov_ids::{Credential, PoolId};
use proposal_store::ProposalStore;
use stake_book::of_accounts::AccountBook;
use std::alloc::Global;

/// The deposits of the live proposals, in lovelace, by the credential to which they return.
/// (The DRep pulser of cardano-ledger)
pub fn deposits_by_account(
    alloc: Global,
    store: &ProposalStore,
) -> Result<TotalMap<Credential>, NoMemory>
    ensures amounts { IfOk result (λ m. (c : Credential) →
        unwrap_or (value_at credential_cmp m c) 0 ≡ paid_by store.now c) }
    ensures total { IfOk result (λ m. total_of m ≡ deposits_of store.now) }
{
    let mut deposits = TotalMap::new(alloc);
    // no sum of some is above that of all
    let _all = store.deposits();
    for i in 0..store.len() {
        if let Some(p) = store.at(i) {
            add(&mut deposits, p.account().cred, p.deposit())?;
        }
    }
    Ok(deposits)
}

/// The deposits of the live proposals, in lovelace, by the pool to which the return account
/// delegates.
pub fn deposits_by_pool(
    alloc: Global,
    store: &ProposalStore,
    accounts: &AccountBook,
) -> Result<TotalMap<PoolId>, NoMemory>
    ensures amounts { IfOk result (λ m. (p : PoolId) →
        unwrap_or (value_at pool_cmp m p) 0 ≡ paid_with accounts.now.live store.now p) }
    ensures total { IfOk result (λ m. total_of m ≤ deposits_of store.now) }
{
    let mut deposits = TotalMap::new(alloc);
    let _all = store.deposits();
    for i in 0..store.len() {
        if let Some(p) = store.at(i) {
            if let Some(pool) = pool_of(accounts, &p.account().cred) {
                add(&mut deposits, pool, p.deposit())?;
            }
        }
    }
    Ok(deposits)
}

// The pool to which a registered credential delegates.
fn pool_of(accounts: &AccountBook, c: &Credential) -> Option<PoolId>
    ensures { result ≡ option_and_then (λ r. r.pool) (registered_at accounts.now.live c.now) }
{
    accounts.get(c)?.registered?.pool
}

// Adds to the amount at a key.
fn add<K: Copy + Ord>(deposits: &mut TotalMap<K>, k: K, n: u64) -> Result<(), NoMemory>
    requires fits { total_of deposits.old + n < 2 ^ 64 }
    ensures amounts { OnOk result (deposits.new ≡
        with_value K.cmp k (unwrap_or (value_at K.cmp deposits.old k) 0 + n) deposits.old) }
    ensures total { OnOk result (total_of deposits.new ≡ total_of deposits.old + n) }
{
    let sum = deposits.get(&k) + n;
    deposits.put(k, sum)?;
    Ok(())
}
