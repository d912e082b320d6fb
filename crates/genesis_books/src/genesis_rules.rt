ghost use Rattle.std.specs.Prelude.{◌≡◌, ◌==◌, not, true, IfOk};
ghost use Rattle.std.specs.List.{list_any};
ghost use Rattle.gov_ids.specs.Orders.{pool_cmp};
ghost use Rattle.genesis_books.specs.Listing.{is_drep_among};
ghost use Rattle.maps.specs.Maps.{has_member};
ghost use Rattle.maps.specs.Words.{none_or};
ghost use Rattle.genesis_balance.specs.of_run_model.Genesis.{genesis_fault, genesis_sum, names_an_unknown, names_another_network, repeats_a_name};
ghost use Rattle.tx_records.specs.GenesisLimits.{is_within_limits};

use crate::committee::members_of;
use crate::entries::{lovelace_in, names_of};
use assets::Assets;
use coin_frac::NoMemory;
use gov_ids::{Address, Credential, Drep, OutRef, PoolId, repeats_a_name};
use std::alloc::Global;
use std::collections::BTreeSet;
use tx_records::limits::SUPPLY_LIMIT;
use tx_records::{Genesis, GenesisPool, GenesisRule};

/// The first rule that a genesis breaks.
pub fn broken_rule(alloc: Global, genesis: &Genesis) -> Result<Option<GenesisRule>, NoMemory>
    requires { is_within_limits genesis.now ≡ true }
    ensures { IfOk result (λ rule. rule ≡ genesis_fault genesis.now) }
{
    if genesis.supply > SUPPLY_LIMIT {
        return Ok(Some(GenesisRule::SupplyTooLarge));
    }
    if a_list_repeats(alloc, genesis)? {
        return Ok(Some(GenesisRule::Repeated));
    }
    if names_an_unknown(alloc, genesis)? {
        return Ok(Some(GenesisRule::UnknownTarget));
    }
    if names_another_network(genesis) {
        return Ok(Some(GenesisRule::WrongNetwork));
    }
    if sum_of(genesis) != u128::from(genesis.supply) {
        return Ok(Some(GenesisRule::SumWrong));
    }
    Ok(None)
}

/// Whether a list has a name twice.
fn a_list_repeats(alloc: Global, genesis: &Genesis) -> Result<bool, NoMemory>
    ensures { IfOk result (λ twice. twice ≡ repeats_a_name genesis.now) }
{
    if repeats_a_name(alloc, members_of(&genesis.committee))?
        || repeats_a_name(alloc, genesis.outputs.as_slice())?
        || repeats_a_name(alloc, genesis.accounts.as_slice())?
        || repeats_a_name(alloc, genesis.pools.as_slice())?
    {
        return Ok(true);
    }
    Ok(repeats_a_name(alloc, genesis.dreps.as_slice())?)
}

/// Whether a pool is named that is not one of these.
fn is_unknown_pool(pools: &BTreeSet<PoolId>, pool: &Option<PoolId>) -> bool
    ensures { result ≡ not (none_or (has_member pool_cmp pools.now.keys) pool.now) }
{
    match pool {
        Some(pool) => !pools.contains(pool),
        None => false,
    }
}

/// Whether a DRep is named that is neither predefined nor one of these.
fn is_unknown_drep(dreps: &BTreeSet<Credential>, drep: &Option<Drep>) -> bool
    ensures { result ≡ not (none_or (is_drep_among dreps.now.keys) drep.now) }
{
    match drep {
        Some(Drep::Registered(cred)) => !dreps.contains(cred),
        Some(Drep::Abstain | Drep::NoConfidence) | None => false,
    }
}

/// Whether an account delegates to a pool or a DRep that is not listed.
fn names_an_unknown(alloc: Global, genesis: &Genesis) -> Result<bool, NoMemory>
    ensures { IfOk result (λ found. found ≡ names_an_unknown genesis.now) }
{
    let pools = names_of(alloc, genesis.pools.as_slice())?;
    let dreps = names_of(alloc, genesis.dreps.as_slice())?;
    let accounts = genesis.accounts.as_slice();
    Ok(
        accounts.iter().any(|(_, _, _, pool, drep)| {
            is_unknown_pool(&pools, pool) || is_unknown_drep(&dreps, drep)
        }),
    )
}

/// Whether an output or a pool's account is on another network.
fn names_another_network(genesis: &Genesis) -> bool
    ensures { result ≡ names_another_network genesis.now }
{
    are_elsewhere(genesis.outputs.as_slice(), genesis.network)
        || pools_are_elsewhere(genesis.pools.as_slice(), genesis.network)
}

/// Whether an output is on another network than this one.
fn are_elsewhere(outputs: &[(OutRef, Address, u64, Assets)], network: u8) -> bool
    ensures { result ≡ list_any (λ o. not (o.1.network == network)) outputs.now }
{
    outputs
        .iter()
        .any(|(_, address, _, _)| address.network != network)
}

/// Whether a pool's account is on another network than this one.
fn pools_are_elsewhere(pools: &[GenesisPool], network: u8) -> bool
    ensures { result ≡ list_any (λ p. not (p.account.network == network)) pools.now }
{
    pools.iter().any(|pool| pool.account.network != network)
}

/// All lovelace of a genesis.
fn sum_of(genesis: &Genesis) -> u128
    requires { is_within_limits genesis.now ≡ true }
    ensures { result ≡ genesis_sum genesis.now }
{
    let treasury = genesis.treasury;
    let reserves = genesis.reserves;
    lovelace_in(genesis.outputs.as_slice())
        + lovelace_in(genesis.accounts.as_slice())
        + lovelace_in(genesis.pools.as_slice())
        + lovelace_in(genesis.dreps.as_slice())
        + u128::from(treasury)
        + u128::from(reserves)
}
