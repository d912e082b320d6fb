ghost use Rattle.std.specs.Prelude.{◌≡◌, ◌+◌, ◌<◌, ◌^◌, map, IfOk, OnOk};
ghost use Rattle.cert_pool.specs.Reaping.{left_of, reaped_of};
ghost use Rattle.epoch_books.specs.Retirements.{AreRefunded, after_reaping, pools_of, refunds_of, retired_by};
ghost use Rattle.epoch_books.specs.Retirements.{retired_in};
ghost use Rattle.ledger_books.specs.Parts.{HoldsSupply, IsStep, frozen_entries, ledger_of_books};
ghost use Rattle.ledger_model.specs.Flows.{deposits};
ghost use Rattle.ledger_model.specs.Moves.{IsMovedBy};
ghost use Rattle.ledger_model.specs.Supply.{pots_of};
ghost use Rattle.payments.specs.Amounts.{all_amounts};
ghost use Rattle.run_model.specs.Boundary.{pool_refunds, terms_turned};
ghost use Rattle.run_model.specs.BoundaryFlows.{payment};
ghost use Rattle.stake_book.specs.Stakes.{AreKept, HasRoom, accounts_of};

use cert_pool::{PoolBook, Reaped};
use coin_frac::NoMemory;
use gov_actions::EnactState;
use gov_ids::{Credential, PoolId};
use ledger_books::Books;
use listed::Boxed;
use payments::{goes_to, paid_out};
use stake_book::StakeBook;
use std::alloc::Global;
use tx_records::Retired;

/// Applies future terms and removes the pools that retire with the next epoch; returns them by id.
/// Delegations to them end. Each deposit goes to the reward account of the terms that hold, or, if
/// that is not registered, to the treasury. (POOLREAP of the formal specification)
pub fn pools_reaped(alloc: Global, mut b: Books) -> Result<(Books, Vec<Retired>), NoMemory>
    requires holds { HoldsSupply b }
    requires epoch { b.epoch + 1 < 2 ^ 64 }
    ensures world { IfOk result (λ r. IsStep after_reaping b r.0) }
    ensures retired { IfOk result (λ r. r.1.items ≡ retired_in (terms_turned (ledger_of_books b))) }
    ensures frozen { IfOk result (λ r. frozen_entries r.0 ≡ frozen_entries b) }
    ensures holds { IfOk result (λ r. HoldsSupply r.0) }
    ensures moved { IfOk result (λ r. let l = terms_turned (ledger_of_books b) in
        IsMovedBy (map (payment deposits l) (pool_refunds l)) (pots_of (ledger_of_books b))
        (pots_of (ledger_of_books r.0))) }
{
    match reaped(alloc, b.stake, b.state, &mut b.pools, b.epoch + 1) {
        Ok((stake, state, retired)) => Ok((Books { stake, state, ..b }, retired)),
        Err(error) => {
            // dropped in one call: a `?` would prove it part by part
            drop((b.pools, b.dreps, b.hot, b.proposals, b.snapshots, b.pending));
            Err(error)
        }
    }
}

// Removes the pools that retire with the epoch, pays out their deposits and reports each pool.
fn reaped(
    alloc: Global,
    stake: StakeBook,
    state: Boxed<EnactState>,
    pools: &mut PoolBook,
    epoch: u64,
) -> Result<(StakeBook, Boxed<EnactState>, Vec<Retired>), NoMemory>
    requires room { HasRoom (all_amounts (refunds_of (reaped_of epoch pools.old))) stake }
    requires fits { state.treasury + all_amounts (refunds_of (reaped_of epoch pools.old)) < 2 ^ 64 }
    ensures left { OnOk result (pools.new ≡ left_of epoch pools.old) }
    ensures refunded { IfOk result (λ r. AreRefunded (reaped_of epoch pools.old) stake state r.0 r.1) }
    ensures retired { IfOk result (λ r. r.2.items ≡ map (retired_by (accounts_of stake)) (reaped_of epoch pools.old)) }
    ensures kept { AreKept stake }
{
    let (reaped, retired) = leaving(alloc, &stake, pools, epoch)?;
    let (stake, state) = refunded(alloc, stake, state, reaped.as_slice())?;
    Ok((stake, state, retired))
}

// Removes the pools that retire with the epoch: they, and the report of each.
fn leaving(
    alloc: Global,
    stake: &StakeBook,
    pools: &mut PoolBook,
    epoch: u64,
) -> Result<(Vec<Reaped>, Vec<Retired>), NoMemory>
    ensures left { OnOk result (pools.new ≡ left_of epoch pools.old) }
    ensures reaped { IfOk result (λ r. r.0.items ≡ reaped_of epoch pools.old) }
    ensures retired { IfOk result (λ r. r.1.items ≡ map (retired_by (accounts_of stake.now)) (reaped_of epoch pools.old)) }
{
    let reaped = pools.reap(epoch)?;
    let retired = retired(alloc, reaped.as_slice(), stake)?;
    Ok((reaped, retired))
}

// Ends the delegations to the pools and pays out their deposits.
fn refunded(
    alloc: Global,
    mut stake: StakeBook,
    state: Boxed<EnactState>,
    reaped: &[Reaped],
) -> Result<(StakeBook, Boxed<EnactState>), NoMemory>
    requires room { HasRoom (all_amounts (refunds_of reaped.now)) stake }
    requires fits { state.treasury + all_amounts (refunds_of reaped.now) < 2 ^ 64 }
    ensures refunded { IfOk result (λ r. AreRefunded reaped.now stake state r.0 r.1) }
    ensures kept { AreKept stake }
{
    stake.clear_pools(pools_of(alloc, reaped)?.as_slice())?;
    let refunds = refunds_of(alloc, reaped)?;
    paid_out(alloc, stake, state, refunds.as_slice())
}

// The ids of the pools that leave.
fn pools_of(alloc: Global, reaped: &[Reaped]) -> Result<Vec<PoolId>, NoMemory>
    ensures { IfOk result (λ v. v.items ≡ pools_of reaped.now) }
{
    Ok(reaped.iter().map(|r| r.pool).collect(alloc)?)
}

// Their deposits, each with its reward account.
fn refunds_of(alloc: Global, reaped: &[Reaped]) -> Result<Vec<(Credential, u64)>, NoMemory>
    ensures { IfOk result (λ v. v.items ≡ refunds_of reaped.now) }
{
    let refunds = reaped.iter().map(|r| (r.account.cred, r.deposit));
    Ok(refunds.collect(alloc)?)
}

// The report of the pools that leave, each with its deposit and where that goes.
fn retired(alloc: Global, reaped: &[Reaped], stake: &StakeBook) -> Result<Vec<Retired>, NoMemory>
    ensures { IfOk result (λ v. v.items ≡ map (retired_by (accounts_of stake.now)) reaped.now) }
{
    let mut retired = Vec::new(alloc);
    for r in reaped {
        retired.push(Retired {
            pool: r.pool,
            amount: r.deposit,
            to: goes_to(stake, r.account),
        })?;
    }
    Ok(retired)
}
