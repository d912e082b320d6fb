ghost use Rattle.std.specs.Prelude.{◌≡◌, [], None, IfOk};
ghost use Rattle.gov_ids.specs.Orders.{credential_cmp};
ghost use Rattle.genesis_balance.specs.of_run_model.Freeze.{entries_of};
ghost use Rattle.genesis_balance.specs.of_run_model.Genesis.{genesis_fault, hot_of_genesis, ledger_of_genesis};
ghost use Rattle.stake_book.specs.Stakes.{accounts_of};
ghost use Rattle.view_map.specs.View.{frozen_of};

use crate::committee::{first_hot, members_of};
use book_records::{DrepState, Output, PoolTerms, Registered};
use cert_pool::{PoolBook, registered};
use coin_frac::NoMemory;
use committee_book::HotBook;
use drep_book::DrepBook;
use hash_seed::HashSeed;
use stake_book::StakeBook;
use std::alloc::Global;
use tx_records::Genesis;

/// The book of a genesis' accounts and outputs, with frozen entries, and that of its pools.
pub fn first_holdings(
    alloc: Global,
    seed: HashSeed,
    genesis: &Genesis,
) -> Result<(StakeBook, PoolBook), NoMemory>
    requires unbroken { genesis_fault genesis.now ≡ None }
    ensures outputs { IfOk result (λ first. first.0.outputs.outputs ≡ (ledger_of_genesis genesis.now).outputs) }
    ensures used { IfOk result (λ first. first.0.outputs.used ≡ (ledger_of_genesis genesis.now).used) }
    ensures accounts { IfOk result (λ first. accounts_of first.0 ≡ (ledger_of_genesis genesis.now).accounts) }
    ensures frozen { IfOk result (λ first. frozen_of credential_cmp first.0.accounts ≡
        entries_of (ledger_of_genesis genesis.now)) }
    ensures pools { IfOk result (λ first. first.1 ≡ (ledger_of_genesis genesis.now).pools) }
{
    let stake = first_stake(alloc, seed, genesis)?;
    let pools = first_pools(alloc, genesis)?;
    Ok((stake, pools))
}

/// The books of the DReps and hot keys of a genesis, with no dormant epoch.
pub fn first_keys(alloc: Global, genesis: &Genesis) -> Result<(DrepBook, HotBook), NoMemory>
    ensures dreps { IfOk result (λ first. first.0.dreps ≡ (ledger_of_genesis genesis.now).dreps) }
    ensures dormant { IfOk result (λ first. first.0.dormant ≡ 0) }
    ensures hot { IfOk result (λ first. first.1 ≡ hot_of_genesis genesis.now.committee) }
{
    let dreps = first_dreps(alloc, genesis)?;
    let hot = first_hot(alloc, members_of(&genesis.committee))?;
    Ok((dreps, hot))
}

/// The book of the accounts and outputs of a genesis, with frozen entries.
fn first_stake(alloc: Global, seed: HashSeed, genesis: &Genesis) -> Result<StakeBook, NoMemory>
    requires unbroken { genesis_fault genesis.now ≡ None }
    ensures outputs { IfOk result (λ stake. stake.outputs.outputs ≡ (ledger_of_genesis genesis.now).outputs) }
    ensures used { IfOk result (λ stake. stake.outputs.used ≡ (ledger_of_genesis genesis.now).used) }
    ensures accounts { IfOk result (λ stake. accounts_of stake ≡ (ledger_of_genesis genesis.now).accounts) }
    ensures frozen { IfOk result (λ stake. frozen_of credential_cmp stake.accounts ≡
        entries_of (ledger_of_genesis genesis.now)) }
{
    let stake = first_accounts(alloc, seed, genesis)?;
    let mut stake = with_first_outputs(alloc, stake, genesis)?;
    stake.freeze();
    Ok(stake)
}

/// The book of the accounts of a genesis, with no output.
fn first_accounts(alloc: Global, seed: HashSeed, genesis: &Genesis) -> Result<StakeBook, NoMemory>
    requires unbroken { genesis_fault genesis.now ≡ None }
    ensures outputs { IfOk result (λ stake. stake.outputs ≡ record { outputs = []; used = [] }) }
    ensures accounts { IfOk result (λ stake. accounts_of stake ≡ (ledger_of_genesis genesis.now).accounts) }
{
    let mut stake = StakeBook::new(alloc, seed);
    for (credential, deposit, rewards, pool, drep) in genesis.accounts.as_slice() {
        let registered = Registered {
            deposit: *deposit,
            rewards: *rewards,
            pool: *pool,
            drep: *drep,
        };
        stake.set_account(*credential, Some(registered))?;
    }
    Ok(stake)
}

/// Adds the outputs of a genesis to its accounts; their transaction ids count as used.
fn with_first_outputs(
    alloc: Global,
    stake: StakeBook,
    genesis: &Genesis,
) -> Result<StakeBook, NoMemory>
    requires unbroken { genesis_fault genesis.now ≡ None }
    requires outputs { stake.outputs ≡ record { outputs = []; used = [] } }
    requires accounts { accounts_of stake ≡ (ledger_of_genesis genesis.now).accounts }
    ensures outputs { IfOk result (λ after. after.outputs.outputs ≡ (ledger_of_genesis genesis.now).outputs) }
    ensures used { IfOk result (λ after. after.outputs.used ≡ (ledger_of_genesis genesis.now).used) }
    ensures accounts { IfOk result (λ after. accounts_of after ≡ accounts_of stake) }
{
    let mut stake = stake;
    for (at, address, lovelace, assets) in genesis.outputs.as_slice() {
        let output = Output {
            address: *address,
            lovelace: *lovelace,
            assets: assets.copied(alloc)?,
        };
        stake.add(*at, output)?;
        stake.mark_used(at.tx)?;
    }
    Ok(stake)
}

/// The book of the pools of a genesis.
fn first_pools(alloc: Global, genesis: &Genesis) -> Result<PoolBook, NoMemory>
    ensures { IfOk result (λ pools. pools ≡ (ledger_of_genesis genesis.now).pools) }
{
    let mut pools = PoolBook::new(alloc);
    for listed in genesis.pools.as_slice() {
        let terms = PoolTerms {
            cost: listed.cost,
            pledge: listed.pledge,
            margin: listed.margin,
            account: listed.account,
            key: listed.key,
        };
        pools.restore(listed.pool, Some(registered(None, terms, listed.deposit)))?;
    }
    Ok(pools)
}

/// The book of the DReps of a genesis, with no dormant epoch.
fn first_dreps(alloc: Global, genesis: &Genesis) -> Result<DrepBook, NoMemory>
    ensures dreps { IfOk result (λ dreps. dreps.dreps ≡ (ledger_of_genesis genesis.now).dreps) }
    ensures dormant { IfOk result (λ dreps. dreps.dormant ≡ 0) }
{
    let mut dreps = DrepBook::new(alloc);
    for (credential, deposit, expiry) in genesis.dreps.as_slice() {
        let drep = DrepState {
            deposit: *deposit,
            expiry: *expiry,
        };
        dreps.put(*credential, drep)?;
    }
    Ok(dreps)
}
