//! Accounts made again of the entries that show them.
ghost use Rattle.std.specs.Prelude.{◌≡◌, ◌++◌, [], ◌∷◌, ◌<◌, ◌^◌, IfOk, OnOk, option_map, true};
ghost use Rattle.account_rows.specs.Entries.{accounts_in};
ghost use Rattle.account_rows.specs.Shown.{entries_shown};
ghost use Rattle.book_records.specs.Outputs.{lovelace_in};
ghost use Rattle.gov_ids.specs.Orders.{credential_cmp};
ghost use Rattle.ledger_model.specs.Ledger.{Ledger};
ghost use Rattle.shown_lists.specs.Only.{IsOnly};
ghost use Rattle.text_forms.specs.Ids.{is_map};

use crate::entries::are_entries;
use book_records::{Entry, Output, Registered};
use gov_ids::{Credential, OutRef};
use no_memory::NoMemory;
use std::alloc::Global;

/// The accounts in order of credentials, if these entries show them with the stake of these
/// outputs: each credential that is registered or has output stake, in order. `NoMemory` may come
/// at any time.
pub fn accounts_of(
    alloc: Global,
    outputs: &[(OutRef, Output)],
    entries: &[(Credential, Entry)],
) -> Result<Option<Vec<(Credential, Registered)>>, NoMemory>
    requires { lovelace_in outputs.now < 2 ^ 64 }
    ensures { (l : Ledger) → IfOk result (λ r. IsOnly (λ accounts. is_map credential_cmp accounts ≡ true) (entries_shown l outputs.now) entries.now
        (option_map (λ v. v.items) r)) }
{
    if !are_entries(alloc, outputs, entries)? {
        return Ok(None);
    }
    let accounts = registered(alloc, entries)?;
    Ok(Some(accounts))
}

/// The registered credentials among entries, each with its registration.
fn registered(
    alloc: Global,
    entries: &[(Credential, Entry)],
) -> Result<Vec<(Credential, Registered)>, NoMemory>
    ensures { IfOk result (λ v. v.items ≡ accounts_in entries.now) }
{
    let mut accounts = Vec::new(alloc);
    for entry in entries {
        add(&mut accounts, entry)?;
    }
    Ok(accounts)
}

/// Adds the credential of an entry with its registration, if it has one.
fn add(
    accounts: &mut Vec<(Credential, Registered)>,
    entry: &(Credential, Entry),
) -> Result<(), NoMemory>
    ensures { OnOk result (accounts.new.items ≡ accounts.old.items ++ accounts_in (entry.now ∷ [])) }
{
    if let Some(registered) = entry.1.registered {
        accounts.push((entry.0, registered))?;
    }
    Ok(())
}
