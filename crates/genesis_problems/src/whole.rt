ghost use Rattle.std.specs.Prelude.{◌≡◌, true, IfOk};
ghost use Rattle.genesis_problems.specs.Problems.{genesis_problems};
ghost use Rattle.tx_records.specs.GenesisLimits.{is_within_limits};

use crate::lovelace::{tell_sum, tell_supply};
use crate::names::tell_names;
use crate::networks::tell_networks;
use crate::problem::GenesisProblem;
use crate::targets::tell_targets;
use no_memory::NoMemory;
use std::alloc::Global;
use tx_records::Genesis;

/// All that is wrong with a genesis, in the order of the genesis rules.
pub fn genesis_problems(alloc: Global, genesis: &Genesis) -> Result<Vec<GenesisProblem>, NoMemory>
    requires { is_within_limits genesis.now ≡ true }
    ensures { IfOk result (λ problems. problems.items ≡ genesis_problems genesis.now) }
{
    let mut told = Vec::new(alloc);
    tell_supply(genesis, &mut told)?;
    tell_names(alloc, genesis, &mut told)?;
    tell_targets(alloc, genesis, &mut told)?;
    tell_networks(genesis, &mut told)?;
    tell_sum(genesis, &mut told)?;
    Ok(told)
}
