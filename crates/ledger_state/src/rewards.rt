ghost use Rattle.std.specs.Prelude.{◌≡◌, ◌+◌, ◌<◌, ◌≤◌, ◌^◌, [], IfOk, length, sum_by};
ghost use Rattle.gov_ids.specs.Orders.{credential_cmp};
ghost use Rattle.maps.specs.Maps.{with_values};
ghost use Rattle.run_model.specs.Step.{in_order_of_credential, rewards_in, rewards_out};

use coin_frac::NoMemory;
use gov_ids::Credential;
use listed::Listed;
use std::alloc::Global;
use std::collections::BTreeMap;
use tx_records::Rewards;

/// What an update takes from reserves and fee pot, in lovelace. (RewardUpdate of the formal
/// specification)
pub fn taken_by(update: &Rewards) -> u128
    ensures { result ≡ rewards_in update.now }
{
    u128::from(update.from_reserves) + u128::from(update.from_fees)
}

/// What an update gives to treasury and accounts, in lovelace. (RewardUpdate of the formal
/// specification)
pub fn given_by(update: &Rewards) -> u128
    requires { length update.now.rewards ≤ 2 ^ 24 }
    ensures { result ≡ rewards_out update.now }
{
    u128::from(update.to_treasury) + sum_of(update.rewards.as_slice())
}

/// The rewards of accounts, added up, in lovelace.
fn sum_of(rewards: &[(Credential, u64)]) -> u128
    requires { length rewards.now ≤ 2 ^ 24 }
    ensures sum { result ≡ sum_by (λ r. r.1) rewards.now }
    ensures fits { result < 2 ^ 90 }
{
    let mut sum = 0;
    for (_, amount) in rewards {
        sum += u128::from(*amount);
    }
    sum
}

/// A copy of the update with its rewards in order of credential.
pub fn in_order(alloc: Global, update: &Rewards) -> Result<Rewards, NoMemory>
    ensures { IfOk result (λ u. u ≡ in_order_of_credential update.now) }
{
    let rewards = listed_in_order(alloc, update.rewards.as_slice())?;
    Ok(Rewards {
        epoch: update.epoch,
        from_reserves: update.from_reserves,
        from_fees: update.from_fees,
        to_treasury: update.to_treasury,
        rewards,
    })
}

/// Rewards in order of credential, the last of each one.
fn listed_in_order(
    alloc: Global,
    rewards: &[(Credential, u64)],
) -> Result<Listed<(Credential, u64)>, NoMemory>
    ensures { IfOk result (λ l. l ≡ with_values credential_cmp rewards.now []) }
{
    let amounts = amounts_of(alloc, rewards)?;
    let mut listed = Vec::new(alloc);
    for (c, amount) in &amounts {
        listed.push((*c, *amount))?;
    }
    Ok(Listed::from_vec(listed))
}

/// The reward of each credential.
fn amounts_of(
    alloc: Global,
    rewards: &[(Credential, u64)],
) -> Result<BTreeMap<Credential, u64>, NoMemory>
    ensures { IfOk result (λ m. m.entries ≡ with_values credential_cmp rewards.now []) }
{
    let mut amounts = BTreeMap::new(alloc);
    for (c, amount) in rewards {
        amounts.insert(*c, *amount)?;
    }
    Ok(amounts)
}
