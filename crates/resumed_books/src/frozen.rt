//! The account entries at the last freeze, by what differs from the live ones.
ghost use Rattle.std.specs.Prelude.{◌≡◌, true, IfOk, OnOk};
ghost use Rattle.gov_ids.specs.Orders.{credential_cmp};
ghost use Rattle.maps.specs.Maps.{IsMap, with_value, with_values, without_keys};
ghost use Rattle.resumed_books.specs.Noted.{added_to, with_frozen};

use accounts::AccountBook;
use book_records::Entry;
use coin_frac::NoMemory;
use gov_ids::Credential;
use listed::Listed;
use resume_checks::has_key;
use stake_book::StakeBook;
use std::alloc::Global;

/// The book with these entries at the last freeze. It keeps those that differ from the live ones.
pub(crate) fn with_frozen(
    alloc: Global,
    stake: StakeBook,
    entries: Listed<(Credential, Entry)>,
) -> Result<StakeBook, NoMemory>
    requires { IsMap credential_cmp entries }
    ensures { IfOk result (λ after. after ≡ with_frozen entries stake) }
{
    let mut stake = stake;
    stake.freeze();
    let added = added_after(alloc, stake.book(), entries.as_slice())?;
    note_entries(&mut stake, entries)?;
    note_none(&mut stake, added.as_slice())?;
    Ok(stake)
}

/// The credentials of the live entries that are not among these.
fn added_after(
    alloc: Global,
    book: &AccountBook,
    entries: &[(Credential, Entry)],
) -> Result<Vec<Credential>, NoMemory>
    requires { IsMap credential_cmp entries.now }
    ensures { IfOk result (λ added. added.items ≡ added_to entries.now book.now.live) }
{
    let mut added = Vec::new(alloc);
    for (credential, _) in book.iter() {
        if !has_key(entries, credential) {
            added.push(*credential)?;
        }
    }
    Ok(added)
}

/// Each of these becomes the entry of its credential at the last freeze.
fn note_entries(stake: &mut StakeBook, entries: Listed<(Credential, Entry)>) -> Result<(), NoMemory>
    requires { IsMap credential_cmp stake.old.accounts.frozen }
    ensures { OnOk result (stake.new ≡
        with_frozen (with_values credential_cmp entries stake.old.accounts.frozen) stake.old) }
{
    for (credential, entry) in entries.as_slice() {
        note_entry(stake, *credential, entry)?;
    }
    Ok(())
}

/// The entry of a credential at the last freeze becomes this one, if it is another.
fn note_entry(stake: &mut StakeBook, credential: Credential, entry: &Entry) -> Result<(), NoMemory>
    requires { IsMap credential_cmp stake.old.accounts.frozen }
    ensures { OnOk result (stake.new ≡
        with_frozen (with_value credential_cmp credential entry.now stake.old.accounts.frozen) stake.old) }
{
    if let Some(frozen) = stake.book().frozen_get(&credential) {
        if is_same_entry(&frozen, entry) {
            return Ok(());
        }
    }
    stake.note_first(credential, Some(*entry))
}

/// These credentials had no entry at the last freeze.
fn note_none(stake: &mut StakeBook, credentials: &[Credential]) -> Result<(), NoMemory>
    requires { IsMap credential_cmp stake.old.accounts.frozen }
    ensures { OnOk result (stake.new ≡
        with_frozen (without_keys credential_cmp credentials.now stake.old.accounts.frozen) stake.old) }
{
    for credential in credentials {
        stake.note_first(*credential, None)?;
    }
    Ok(())
}

/// Whether two entries are the same.
fn is_same_entry(a: &Entry, b: &Entry) -> bool
    ensures { result ≡ true → a.now ≡ b.now }
{
    a == b
}
