ghost use Rattle.std.specs.Prelude.{◌≡◌, ◌≤◌, OnOk, length, map, true};
ghost use Rattle.genesis_problems.specs.Problems.{network_tests, networks_tests, told_with};
ghost use Rattle.tx_records.specs.GenesisLimits.{is_within_limits};

use crate::problem::{GenesisList, GenesisProblem};
use crate::told::tell;
use gov_ids::{Address, OutRef};
use no_memory::NoMemory;
use tx_records::limits::LIST_LIMIT;
use tx_records::{Genesis, GenesisPool};

/// An entry of a list of a genesis that is of a network.
trait Placed {
    ghost use Rattle.std.specs.Prelude.{◌≡◌, ℕ};

    ghost network_of: { Self → ℕ };

    fn network(&self) -> u8
        ensures { result ≡ network_of self.now };
}

impl<A> Placed for (OutRef, Address, u64, A) {
    ghost network_of = { λ o. o.1.network };

    fn network(&self) -> u8 {
        self.1.network
    }
}

impl Placed for GenesisPool {
    ghost network_of = { λ p. p.account.network };

    fn network(&self) -> u8 {
        self.account.network
    }
}

/// Adds each entry of another network than this one.
fn tell_elsewhere<T: Placed>(
    network: u8,
    list: GenesisList,
    entries: &[T],
    told: &mut Vec<GenesisProblem>,
) -> Result<(), NoMemory>
    requires { length entries.now ≤ LIST_LIMIT }
    ensures { OnOk result (told.new.items ≡
        told_with (network_tests network list (map T.network_of entries.now)) told.old.items) }
{
    for (index, entry) in entries.iter().enumerate() {
        let problem = GenesisProblem::WrongNetwork(list, index as u32);
        tell(problem, entry.network() != network, told)?;
    }
    Ok(())
}

/// Adds each output, and each pool's reward account, of another network.
pub fn tell_networks(genesis: &Genesis, told: &mut Vec<GenesisProblem>) -> Result<(), NoMemory>
    requires { is_within_limits genesis.now ≡ true }
    ensures { OnOk result (told.new.items ≡ told_with (networks_tests genesis.now) told.old.items) }
{
    let network = genesis.network;
    tell_elsewhere(
        network,
        GenesisList::Outputs,
        genesis.outputs.as_slice(),
        told,
    )?;
    tell_elsewhere(network, GenesisList::Pools, genesis.pools.as_slice(), told)
}
