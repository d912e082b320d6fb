ghost use Rattle.std.specs.Prelude.{◌≡◌, ◌≤◌, ◌<◌, ◌^◌, OnOk, length, sum_by, true};
ghost use Rattle.genesis_problems.specs.Problems.{sum_tests, supply_tests, told_with};
ghost use Rattle.run_model.specs.Genesis.{genesis_sum};
ghost use Rattle.tx_records.specs.GenesisLimits.{is_within_limits};

use crate::problem::GenesisProblem;
use crate::told::tell;
use gov_ids::{Address, Credential, OutRef};
use no_memory::NoMemory;
use tx_records::limits::{LIST_LIMIT, SUPPLY_LIMIT};
use tx_records::{Genesis, GenesisPool};

/// An entry of a list of a genesis that holds lovelace.
trait Holding {
    ghost use Rattle.std.specs.Prelude.{◌≡◌, ◌<◌, ◌^◌, ℕ};

    ghost lovelace_of: { Self → ℕ };

    fn lovelace(&self) -> u128
        ensures sum { result ≡ lovelace_of self.now }
        ensures fits { result < 2 ^ 65 };
}

impl<A> Holding for (OutRef, Address, u64, A) {
    ghost lovelace_of = { λ o. o.2 };

    fn lovelace(&self) -> u128 {
        u128::from(self.2)
    }
}

impl<A, B> Holding for (Credential, u64, u64, A, B) {
    ghost use Rattle.std.specs.Prelude.{◌+◌};

    ghost lovelace_of = { λ a. a.1 + a.2 };

    fn lovelace(&self) -> u128 {
        u128::from(self.1) + u128::from(self.2)
    }
}

impl Holding for GenesisPool {
    ghost lovelace_of = { λ p. p.deposit };

    fn lovelace(&self) -> u128 {
        u128::from(self.deposit)
    }
}

impl Holding for (Credential, u64, u64) {
    ghost lovelace_of = { λ d. d.1 };

    fn lovelace(&self) -> u128 {
        u128::from(self.1)
    }
}

/// The lovelace that these entries hold.
fn lovelace_in<T: Holding>(entries: &[T]) -> u128
    requires { length entries.now ≤ LIST_LIMIT }
    ensures sum { result ≡ sum_by T.lovelace_of entries.now }
    ensures fits { result < 2 ^ 90 }
{
    let mut sum = 0;
    for entry in entries {
        sum += entry.lovelace();
    }
    sum
}

/// All lovelace of a genesis.
fn sum_of(genesis: &Genesis) -> u128
    requires { is_within_limits genesis.now ≡ true }
    ensures { result ≡ genesis_sum genesis.now }
{
    let treasury = genesis.treasury;
    let reserves = genesis.reserves;
    lovelace_in(genesis.outputs.as_slice())
        + lovelace_in(genesis.accounts.as_slice())
        + lovelace_in(genesis.pools.as_slice())
        + lovelace_in(genesis.dreps.as_slice())
        + u128::from(treasury)
        + u128::from(reserves)
}

/// Adds the supply, if it is above the limit.
pub fn tell_supply(genesis: &Genesis, told: &mut Vec<GenesisProblem>) -> Result<(), NoMemory>
    ensures { OnOk result (told.new.items ≡ told_with (supply_tests genesis.now) told.old.items) }
{
    let supply = genesis.supply;
    tell(
        GenesisProblem::SupplyTooLarge(supply),
        supply > SUPPLY_LIMIT,
        told,
    )
}

/// Adds all lovelace that is listed, if it is another number than the supply.
pub fn tell_sum(genesis: &Genesis, told: &mut Vec<GenesisProblem>) -> Result<(), NoMemory>
    requires { is_within_limits genesis.now ≡ true }
    ensures { OnOk result (told.new.items ≡ told_with (sum_tests genesis.now) told.old.items) }
{
    let supply = genesis.supply;
    let sum = sum_of(genesis);
    tell(
        GenesisProblem::SumWrong(sum, supply),
        sum != u128::from(supply),
        told,
    )
}
