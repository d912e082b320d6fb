//! Sums of lovelace: the pots and the supply, a pending update, and what is frozen.
ghost use Rattle.std.specs.Prelude.{◌≡◌, ◌+◌, ◌-◌, ◌≤◌, ◌==◌, nat_le};
ghost use Rattle.std.specs.Option.{SomeIff};
ghost use Rattle.book_records.specs.Outputs.{lovelace_in};
ghost use Rattle.checkpoint_model.specs.Resumable.{are_within, holds_supply, is_covered, is_within_supply};
ghost use Rattle.gov_model.specs.Proposals.{deposits_of};
ghost use Rattle.ledger_model.specs.Ledger.{Ledger};
ghost use Rattle.ledger_model.specs.Supply.{deposits_of as ledger_deposits, pots_of, total_of};
ghost use Rattle.maps.specs.Maps.{sum_values};
ghost use Rattle.run_model.specs.SoundWorld.{held_by};
ghost use Rattle.run_model.specs.Step.{rewards_in, rewards_out};
ghost use Rattle.run_model.specs.World.{World};
ghost use Rattle.resume_checks.specs.Sums.{deposits_in};

use crate::amounts::{
    AccountDeposit, Balance, DrepDeposit, Held, OutputAmount, PoolDeposit, PoolStake,
    ProposalDeposit, Reward, left_without,
};
use book_records::{DrepState, Entry, Output, Pool, Registered};
use coin_frac::SUPPLY_LIMIT;
use gov_actions::Proposal;
use gov_ids::{Credential, OutRef, PoolId};
use snapshots::Snapshots;
use tx_records::{Pots, Rewards};

/// Whether these outputs hold just this lovelace.
pub fn holds_lovelace(outputs: &[(OutRef, Output)], lovelace: u64) -> bool
    ensures { result ≡ (lovelace_in outputs.now == lovelace) }
{
    left_without::<OutputAmount>(u128::from(lovelace), outputs) == Some(0)
}

/// Whether the reward balances of these accounts are just this lovelace.
pub fn holds_rewards(accounts: &[(Credential, Registered)], rewards: u64) -> bool
    ensures { result ≡ (sum_values (λ r. r.rewards) accounts.now == rewards) }
{
    left_without::<Balance>(u128::from(rewards), accounts) == Some(0)
}

/// Whether the deposits of accounts, pools, DReps and proposals are just this lovelace.
pub fn holds_deposits(
    accounts: &[(Credential, Registered)],
    pools: &[(PoolId, Pool)],
    dreps: &[(Credential, DrepState)],
    proposals: &[Proposal],
    deposits: u64,
) -> bool
    ensures { (l : Ledger) → result ≡ (ledger_deposits (record l {
      accounts = accounts.now;
      pools = pools.now;
      dreps = dreps.now;
      proposals = proposals.now;
    }) == deposits) }
{
    left_without_deposits(accounts, pools, dreps, proposals, u128::from(deposits)) == Some(0)
}

/// What is left of an amount without these deposits; none if they are more.
fn left_without_deposits(
    accounts: &[(Credential, Registered)],
    pools: &[(PoolId, Pool)],
    dreps: &[(Credential, DrepState)],
    proposals: &[Proposal],
    amount: u128,
) -> Option<u128>
    ensures { let deposits = deposits_in accounts.now pools.now dreps.now proposals.now in
        SomeIff result (deposits ≤ amount) (amount - deposits) }
{
    let left = left_without::<AccountDeposit>(amount, accounts)?;
    let left = left_without::<PoolDeposit>(left, pools)?;
    let left = left_without::<DrepDeposit>(left, dreps)?;
    left_without::<ProposalDeposit>(left, proposals)
}

/// Whether the pots of a ledger hold its supply, which is within its limit.
pub fn holds_supply(pots: &Pots, supply: u64) -> bool
    ensures { (l : Ledger) → pots_of l ≡ pots.now → result ≡ holds_supply (record l { supply = supply }) }
{
    total_of(pots) == u128::from(supply) && supply <= SUPPLY_LIMIT
}

/// The sum of the pots.
fn total_of(pots: &Pots) -> u128
    ensures { result ≡ total_of pots.now }
{
    let held = u128::from(pots.outputs) + u128::from(pots.deposits) + u128::from(pots.rewards);
    let given = u128::from(pots.fees) + u128::from(pots.donations);
    held + given + u128::from(pots.treasury) + u128::from(pots.reserves)
}

/// Whether a pending update is of the epoch, balanced, and covered by reserves and fees.
pub fn is_covered(epoch: u64, reserves: u64, fees: u64, update: &Rewards) -> bool
    ensures { (l : Ledger) → result ≡ is_covered (record l {
      epoch = epoch;
      reserves = reserves;
      fees = fees;
    }) update.now }
{
    update.epoch == epoch
        && is_balanced(update)
        && update.from_reserves <= reserves
        && update.from_fees <= fees
}

/// Whether an update takes what it gives.
fn is_balanced(update: &Rewards) -> bool
    ensures { result ≡ (rewards_in update.now == rewards_out update.now) }
{
    let taken = u128::from(update.from_reserves) + u128::from(update.from_fees);
    match taken.checked_sub(u128::from(update.to_treasury)) {
        Some(left) => left_without::<Reward>(left, update.rewards.as_slice()) == Some(0),
        None => false,
    }
}

/// Whether the stakes of these pools add up to at most the supply.
pub fn are_within(supply: u64, stakes: &[(PoolId, u64)]) -> bool
    ensures { result ≡ are_within supply stakes.now }
{
    left_without::<PoolStake>(u128::from(supply), stakes).is_some()
}

/// Whether what frozen entries hold, with the deposits of the frozen proposals, is at most the
/// supply.
pub fn is_held_within(supply: u64, entries: &[(Credential, Entry)], proposals: &[Proposal]) -> bool
    ensures { result ≡ nat_le (sum_values held_by entries.now + deposits_of proposals.now) supply }
{
    match left_without::<Held>(u128::from(supply), entries) {
        Some(left) => left_without::<ProposalDeposit>(left, proposals).is_some(),
        None => false,
    }
}

/// Whether each snapshot of pools, the noted fees, and what frozen entries hold with the deposits
/// of the frozen proposals are each at most the supply.
pub fn is_within_supply(
    supply: u64,
    stakes: &Snapshots,
    entries: &[(Credential, Entry)],
    proposals: &[Proposal],
) -> bool
    ensures { (w : World) → result ≡ is_within_supply (record w {
      ledger = record w.ledger { supply = supply };
      mark = stakes.now.mark;
      set = stakes.now.set;
      go = stakes.now.go;
      noted_fees = stakes.now.fees;
      frozen = record w.frozen { entries = entries.now; proposals = proposals.now };
    }) }
{
    are_within(supply, stakes.mark.as_slice())
        && are_within(supply, stakes.set.as_slice())
        && are_within(supply, stakes.go.as_slice())
        && stakes.fees <= supply
        && is_held_within(supply, entries, proposals)
}
