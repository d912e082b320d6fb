//! Whether entries are those of a ledger with given outputs.
ghost use Rattle.std.specs.Prelude.{◌≡◌, ◌<◌, ◌^◌, IfOk, true};
ghost use Rattle.std.specs.List.{list_all};
ghost use Rattle.account_rows.specs.Entries.{amount_of, are_entries, has_entry, has_stake};
ghost use Rattle.book_records.specs.Outputs.{lovelace_in};
ghost use Rattle.gov_ids.specs.Orders.{credential_cmp};
ghost use Rattle.text_forms.specs.Ids.{is_map};

use crate::stakes::{stake_of, stakes_of};
use book_records::{Entry, Output};
use coin_frac::TotalMap;
use gov_ids::{Credential, OutRef};
use no_memory::NoMemory;
use resume_checks::{are_counted_entries, has_key, is_map};
use std::alloc::Global;

/// Whether entries are in order, are registered or have stake, have the stake of these outputs, and
/// lack no credential with stake. `NoMemory` may come at any time.
pub(crate) fn are_entries(
    alloc: Global,
    outputs: &[(OutRef, Output)],
    entries: &[(Credential, Entry)],
) -> Result<bool, NoMemory>
    requires { lovelace_in outputs.now < 2 ^ 64 }
    ensures { IfOk result (λ b. b ≡ are_entries outputs.now entries.now) }
{
    if !is_map(entries) || !are_counted_entries(entries) || !have_entries(outputs, entries) {
        return Ok(false);
    }
    let stakes = stakes_of(alloc, outputs)?;
    Ok(have_stakes(entries, &stakes))
}

/// Whether each output that holds lovelace for a stake part has an entry of it.
fn have_entries(outputs: &[(OutRef, Output)], entries: &[(Credential, Entry)]) -> bool
    requires { is_map credential_cmp entries.now ≡ true }
    ensures { result ≡ list_all (λ o. has_entry entries.now o.1) outputs.now }
{
    for (_, output) in outputs {
        if !has_entry(output, entries) {
            return false;
        }
    }
    true
}

/// Whether an output holds no lovelace, has no stake part, or has an entry of it.
fn has_entry(output: &Output, entries: &[(Credential, Entry)]) -> bool
    requires { is_map credential_cmp entries.now ≡ true }
    ensures { result ≡ has_entry entries.now output.now }
{
    match &output.address.stake {
        Some(credential) => output.lovelace == 0 || has_key(entries, credential),
        None => true,
    }
}

/// Whether the stake of each entry is the amount at its credential.
fn have_stakes(entries: &[(Credential, Entry)], stakes: &TotalMap<Credential>) -> bool
    ensures { result ≡ list_all (has_stake (amount_of stakes.now)) entries.now }
{
    for (credential, entry) in entries {
        if entry.stake != stake_of(stakes, credential) {
            return false;
        }
    }
    true
}
