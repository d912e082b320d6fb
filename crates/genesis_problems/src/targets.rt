ghost use Rattle.std.specs.Prelude.{◌≡◌, ◌≤◌, not, true, IfOk, OnOk, length, map};
ghost use Rattle.gov_ids.specs.Orders.{pool_cmp};
ghost use Rattle.maps.specs.Maps.{has_member, in_order};
ghost use Rattle.maps.specs.Words.{none_or};
ghost use Rattle.genesis_problems.specs.Problems.{per_index, target_tests, targets_tests, told_with};
ghost use Rattle.genesis_problems.specs.Listing.{is_drep_among};
ghost use Rattle.tx_records.specs.GenesisLimits.{is_within_limits};

use crate::problem::GenesisProblem;
use crate::told::tell;
use gov_ids::{Credential, Drep, Named, PoolId};
use no_memory::NoMemory;
use std::alloc::Global;
use std::collections::BTreeSet;
use tx_records::Genesis;
use tx_records::limits::LIST_LIMIT;

/// The names of these entries.
fn names_of<T: Named>(alloc: Global, entries: &[T]) -> Result<BTreeSet<T::Name>, NoMemory>
    ensures { IfOk result (λ names. names.keys ≡ in_order T.Name.order (map T.name entries.now)) }
{
    let mut names = BTreeSet::new(alloc);
    for entry in entries {
        names.insert(entry.name())?;
    }
    Ok(names)
}

/// Whether a pool is named that is not one of these.
fn is_unknown_pool(pools: &BTreeSet<PoolId>, pool: &Option<PoolId>) -> bool
    ensures { result ≡ not (none_or (has_member pool_cmp pools.now.keys) pool.now) }
{
    match pool {
        Some(pool) => !pools.contains(pool),
        None => false,
    }
}

/// Whether a DRep is named that is neither predefined nor one of these.
fn is_unknown_drep(dreps: &BTreeSet<Credential>, drep: &Option<Drep>) -> bool
    ensures { result ≡ not (none_or (is_drep_among dreps.now.keys) drep.now) }
{
    match drep {
        Some(Drep::Registered(cred)) => !dreps.contains(cred),
        Some(Drep::Abstain | Drep::NoConfidence) | None => false,
    }
}

/// Adds the pool and the DRep of an account, each if it is not one of these.
fn tell_target(
    index: u32,
    pools: &BTreeSet<PoolId>,
    dreps: &BTreeSet<Credential>,
    pool: &Option<PoolId>,
    drep: &Option<Drep>,
    told: &mut Vec<GenesisProblem>,
) -> Result<(), NoMemory>
    ensures { OnOk result (told.new.items ≡ told_with
        (target_tests (has_member pool_cmp pools.now.keys) (is_drep_among dreps.now.keys) index pool.now drep.now)
        told.old.items) }
{
    tell(
        GenesisProblem::UnknownPool(index),
        is_unknown_pool(pools, pool),
        told,
    )?;
    tell(
        GenesisProblem::UnknownDrep(index),
        is_unknown_drep(dreps, drep),
        told,
    )
}

/// Adds each pool and each DRep to which one of these accounts delegates, if it is not listed.
fn tell_unknown(
    pools: &BTreeSet<PoolId>,
    dreps: &BTreeSet<Credential>,
    accounts: &[(Credential, u64, u64, Option<PoolId>, Option<Drep>)],
    told: &mut Vec<GenesisProblem>,
) -> Result<(), NoMemory>
    requires { length accounts.now ≤ LIST_LIMIT }
    ensures { OnOk result (told.new.items ≡ told_with
        (per_index (λ i a. target_tests (has_member pool_cmp pools.now.keys) (is_drep_among dreps.now.keys) i a.3 a.4) accounts.now)
        told.old.items) }
{
    for (index, (_, _, _, pool, drep)) in accounts.iter().enumerate() {
        tell_target(index as u32, pools, dreps, pool, drep, told)?;
    }
    Ok(())
}

/// Adds each pool and each DRep to which an account delegates and that is not listed.
pub fn tell_targets(
    alloc: Global,
    genesis: &Genesis,
    told: &mut Vec<GenesisProblem>,
) -> Result<(), NoMemory>
    requires { is_within_limits genesis.now ≡ true }
    ensures { OnOk result (told.new.items ≡ told_with (targets_tests genesis.now) told.old.items) }
{
    let pools = names_of(alloc, genesis.pools.as_slice())?;
    let dreps = names_of(alloc, genesis.dreps.as_slice())?;
    tell_unknown(&pools, &dreps, genesis.accounts.as_slice(), told)
}
