ghost use Rattle.std.specs.Prelude.{◌≡◌, ◌≤◌, OnOk, length, map, true};
ghost use Rattle.genesis_problems.specs.Problems.{name_tests, names_tests, told_with};
ghost use Rattle.tx_records.specs.Limits.{genesis_members};
ghost use Rattle.tx_records.specs.GenesisLimits.{is_within_limits};

use crate::problem::{GenesisList, GenesisProblem};
use crate::told::tell;
use gov_ids::{Credential, Named};
use no_memory::NoMemory;
use std::alloc::Global;
use std::collections::BTreeSet;
use tx_records::limits::LIST_LIMIT;
use tx_records::{Genesis, GenesisCommittee};

/// A member at the start: cold key, last epoch of the term, hot key.
type Member = (Credential, u64, Option<Credential>);

/// The members at the start; none if there is no committee.
fn members_of(committee: &Option<GenesisCommittee>) -> &[Member]
    ensures { result.now ≡ genesis_members committee.now }
{
    match committee {
        Some(committee) => committee.members.as_slice(),
        None => &[],
    }
}

/// Adds each entry whose name is at an earlier index of its list.
fn tell_repeated<T: Named>(
    alloc: Global,
    list: GenesisList,
    entries: &[T],
    told: &mut Vec<GenesisProblem>,
) -> Result<(), NoMemory>
    requires { length entries.now ≤ LIST_LIMIT }
    ensures { OnOk result (told.new.items ≡
        told_with (name_tests T.Name.order list (map T.name entries.now)) told.old.items) }
{
    let mut names = BTreeSet::new(alloc);
    for (index, entry) in entries.iter().enumerate() {
        let is_new = names.insert(entry.name())?;
        tell(GenesisProblem::Repeated(list, index as u32), !is_new, told)?;
    }
    Ok(())
}

/// Adds each entry whose name is at an earlier index, list after list.
pub fn tell_names(
    alloc: Global,
    genesis: &Genesis,
    told: &mut Vec<GenesisProblem>,
) -> Result<(), NoMemory>
    requires { is_within_limits genesis.now ≡ true }
    ensures { OnOk result (told.new.items ≡ told_with (names_tests genesis.now) told.old.items) }
{
    tell_repeated(
        alloc,
        GenesisList::Members,
        members_of(&genesis.committee),
        told,
    )?;
    tell_repeated(
        alloc,
        GenesisList::Outputs,
        genesis.outputs.as_slice(),
        told,
    )?;
    tell_repeated(
        alloc,
        GenesisList::Accounts,
        genesis.accounts.as_slice(),
        told,
    )?;
    tell_repeated(alloc, GenesisList::Pools, genesis.pools.as_slice(), told)?;
    tell_repeated(alloc, GenesisList::Dreps, genesis.dreps.as_slice(), told)
}
