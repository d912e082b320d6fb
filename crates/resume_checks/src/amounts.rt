//! Lovelace of items, taken from an amount.
ghost use Rattle.std.specs.Prelude.{◌-◌, ◌≤◌, sum_by};
ghost use Rattle.std.specs.Option.{SomeIff};

use book_records::{DrepState, Entry, Output, Pool, Registered};
use gov_actions::Proposal;
use gov_ids::{Credential, OutRef, PoolId};

/// What an item of a list holds, in lovelace.
pub trait Amount {
    /// The items.
    type Item;

    ghost use Rattle.std.specs.Prelude.{◌≡◌, ℕ};

    ghost lovelace: { Self.Item → ℕ };

    /// The lovelace of an item.
    fn of(item: &Self::Item) -> u128
        ensures { result ≡ lovelace item.now };
}

/// The lovelace of an output.
pub struct OutputAmount;

impl Amount for OutputAmount {
    type Item = (OutRef, Output);

    ghost lovelace = { λ o. o.1.lovelace };

    fn of(item: &(OutRef, Output)) -> u128 {
        u128::from(item.1.lovelace)
    }
}

/// The reward balance of an account.
pub struct Balance;

impl Amount for Balance {
    type Item = (Credential, Registered);

    ghost lovelace = { λ a. a.1.rewards };

    fn of(item: &(Credential, Registered)) -> u128 {
        u128::from(item.1.rewards)
    }
}

/// The deposit of an account.
pub struct AccountDeposit;

impl Amount for AccountDeposit {
    type Item = (Credential, Registered);

    ghost lovelace = { λ a. a.1.deposit };

    fn of(item: &(Credential, Registered)) -> u128 {
        u128::from(item.1.deposit)
    }
}

/// The deposit of a pool.
pub struct PoolDeposit;

impl Amount for PoolDeposit {
    type Item = (PoolId, Pool);

    ghost lovelace = { λ p. p.1.deposit };

    fn of(item: &(PoolId, Pool)) -> u128 {
        u128::from(item.1.deposit)
    }
}

/// The deposit of a DRep.
pub struct DrepDeposit;

impl Amount for DrepDeposit {
    type Item = (Credential, DrepState);

    ghost lovelace = { λ d. d.1.deposit };

    fn of(item: &(Credential, DrepState)) -> u128 {
        u128::from(item.1.deposit)
    }
}

/// The deposit of a proposal.
pub struct ProposalDeposit;

impl Amount for ProposalDeposit {
    type Item = Proposal;

    ghost lovelace = { λ p. p.deposit };

    fn of(item: &Proposal) -> u128 {
        u128::from(item.deposit)
    }
}

/// The stake of a pool.
pub struct PoolStake;

impl Amount for PoolStake {
    type Item = (PoolId, u64);

    ghost lovelace = { λ s. s.1 };

    fn of(item: &(PoolId, u64)) -> u128 {
        u128::from(item.1)
    }
}

/// The reward of an account in an update.
pub struct Reward;

impl Amount for Reward {
    type Item = (Credential, u64);

    ghost lovelace = { λ r. r.1 };

    fn of(item: &(Credential, u64)) -> u128 {
        u128::from(item.1)
    }
}

/// What a frozen entry holds: its output stake and its reward balance.
pub struct Held;

impl Amount for Held {
    type Item = (Credential, Entry);

    ghost use Rattle.run_model.specs.SoundWorld.{held_by};

    ghost lovelace = { λ e. held_by e.1 };

    fn of(item: &(Credential, Entry)) -> u128 {
        let stake = u128::from(item.1.stake);
        match &item.1.registered {
            Some(registered) => stake + u128::from(registered.rewards),
            None => stake,
        }
    }
}

/// What is left of an amount without the lovelace of these items; none if they hold more.
pub fn left_without<A: Amount>(amount: u128, items: &[A::Item]) -> Option<u128>
    ensures { SomeIff result (sum_by A.lovelace items.now ≤ amount) (amount - sum_by A.lovelace items.now) }
{
    let mut left = amount;
    for item in items {
        left = left.checked_sub(A::of(item))?;
    }
    Some(left)
}
