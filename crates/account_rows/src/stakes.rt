//! What outputs hold, by stake part.
ghost use Rattle.std.specs.Prelude.{◌≡◌, ◌+◌, ◌<◌, ◌≤◌, ◌^◌, IfOk, OnOk};
ghost use Rattle.account_rows.specs.Entries.{amount_of, held_for, stake_in};
ghost use Rattle.book_records.specs.Outputs.{lovelace_in};
ghost use Rattle.coin_frac.specs.Totals.{total_of};
ghost use Rattle.gov_ids.specs.declared.Credential.{Credential};
ghost use Rattle.gov_ids.specs.Orders.{credential_cmp};
ghost use Rattle.maps.specs.Maps.{IsMap};

use book_records::Output;
use coin_frac::TotalMap;
use gov_ids::{Credential, OutRef};
use no_memory::NoMemory;
use std::alloc::Global;

/// What outputs hold, in lovelace, by stake part. `NoMemory` may come at any time.
pub(crate) fn stakes_of(
    alloc: Global,
    outputs: &[(OutRef, Output)],
) -> Result<TotalMap<Credential>, NoMemory>
    requires { lovelace_in outputs.now < 2 ^ 64 }
    ensures { IfOk result (λ stakes. (c : Credential) → amount_of stakes c ≡ stake_in outputs.now c) }
{
    let mut stakes = TotalMap::new(alloc);
    for (_, output) in outputs {
        add(&mut stakes, output)?;
    }
    Ok(stakes)
}

/// Adds what an output holds at its stake part, if it has one.
fn add(stakes: &mut TotalMap<Credential>, output: &Output) -> Result<(), NoMemory>
    requires { total_of stakes.old + output.now.lovelace < 2 ^ 64 }
    ensures each { OnOk result ((c : Credential) → amount_of stakes.new c ≡ amount_of stakes.old c + held_for output.now c) }
    ensures total { OnOk result (total_of stakes.new ≤ total_of stakes.old + output.now.lovelace) }
{
    let Some(credential) = output.address.stake else {
        return Ok(());
    };
    let stake = stake_of(stakes, &credential) + output.lovelace;
    stakes.put(credential, stake)?;
    Ok(())
}

/// The stake of a credential, in lovelace.
pub(crate) fn stake_of(stakes: &TotalMap<Credential>, credential: &Credential) -> u64
    ensures value { result ≡ amount_of stakes.now credential.now }
    ensures in_order { IsMap credential_cmp stakes.now }
{
    stakes.get(credential)
}
