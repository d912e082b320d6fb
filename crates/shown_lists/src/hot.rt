//! What cold keys authorized.
ghost use Rattle.std.specs.Prelude.{◌≡◌, ◌↔◌, [], ◌∷◌, true, List, map, option_map, IfOk, IfNone, IfSome, OnOk};
ghost use Rattle.gov_actions.specs.declared.state.HotState.{HotState};
ghost use Rattle.gov_ids.specs.declared.Credential.{Credential};
ghost use Rattle.gov_ids.specs.Orders.{credential_cmp};
ghost use Rattle.maps.specs.Maps.{with_values};
ghost use Rattle.shown_lists.specs.Only.{IsOnly};
ghost use Rattle.shown_lists.specs.Shows.{hot_of_all, hot_of_members, hot_shown, others_shown, row_shown};
ghost use Rattle.text_forms.specs.Ids.{is_map};

use committee_book::HotBook;
use gov_actions::{HotState, MemberList};
use gov_ids::Credential;
use no_memory::NoMemory;
use resume_checks::find;
use std::alloc::Global;

/// A member with its term, and what its cold key authorized.
pub type MemberRow = ((Credential, u64), Option<HotState>);

/// What cold keys authorized, in their order, if these lines show it: each member with its key, and
/// the keys of others. `NoMemory` may come at any time.
pub fn hot_of(
    alloc: Global,
    members: &MemberList,
    rows: &[MemberRow],
    others: &[(Credential, HotState)],
) -> Result<Option<Vec<(Credential, HotState)>>, NoMemory>
    requires in_order { is_map credential_cmp members.now ≡ true }
    requires rows { map (λ r. r.0) rows.now ≡ members.now }
    ensures { IfOk result (λ r. IsOnly (λ hot. is_map credential_cmp hot ≡ true) (hot_shown members.now) (rows.now, others.now)
        (option_map (λ v. v.items) r)) }
{
    let hot = all_of(alloc, rows, others)?;
    if members_are_shown(hot.as_slice(), rows)
        && others_are_shown(members, hot.as_slice(), others)
    {
        Ok(Some(hot))
    } else {
        Ok(None)
    }
}

/// What members and others authorized, in order of cold keys.
fn all_of(
    alloc: Global,
    rows: &[MemberRow],
    others: &[(Credential, HotState)],
) -> Result<Vec<(Credential, HotState)>, NoMemory>
    ensures { IfOk result (λ v. v.items ≡ hot_of_all rows.now others.now) }
{
    let mut book = HotBook::new(alloc);
    add_others(&mut book, others)?;
    add_members(&mut book, rows)?;
    book.listed(alloc)
}

/// Adds what these cold keys authorized.
fn add_others(book: &mut HotBook, others: &[(Credential, HotState)]) -> Result<(), NoMemory>
    ensures { OnOk result (book.new ≡ with_values credential_cmp others.now book.old) }
{
    for (cold, state) in others {
        book.set(*cold, *state)?;
    }
    Ok(())
}

/// Adds what the cold keys of members authorized.
fn add_members(book: &mut HotBook, rows: &[MemberRow]) -> Result<(), NoMemory>
    ensures { OnOk result (book.new ≡ with_values credential_cmp (hot_of_members rows.now) book.old) }
{
    for row in rows {
        add_member(book, row)?;
    }
    Ok(())
}

/// Adds what the cold key of a member authorized, if anything.
fn add_member(book: &mut HotBook, row: &MemberRow) -> Result<(), NoMemory>
    ensures { OnOk result (book.new ≡ with_values credential_cmp (hot_of_members (row.now ∷ [])) book.old) }
{
    match row.1 {
        Some(state) => book.set(row.0.0, state),
        None => Ok(()),
    }
}

/// Whether each member is shown with what its cold key authorized.
fn members_are_shown(hot: &[(Credential, HotState)], rows: &[MemberRow]) -> bool
    requires { is_map credential_cmp hot.now ≡ true }
    ensures { (result ≡ true) ↔ (map (row_shown hot.now) rows.now ≡ rows.now) }
{
    for row in rows {
        if !is_shown(hot, row) {
            return false;
        }
    }
    true
}

/// Whether a member is shown with what its cold key authorized.
fn is_shown(hot: &[(Credential, HotState)], row: &MemberRow) -> bool
    requires { is_map credential_cmp hot.now ≡ true }
    ensures { (result ≡ true) ↔ (row_shown hot.now row.now ≡ row.now) }
{
    find(hot, &row.0.0).copied() == row.1
}

/// Whether the entries of keys that are not those of members are just these.
fn others_are_shown(
    members: &MemberList,
    hot: &[(Credential, HotState)],
    others: &[(Credential, HotState)],
) -> bool
    ensures { (result ≡ true) ↔ (others_shown members.now hot.now ≡ others.now) }
{
    let mut rest = others;
    for entry in hot {
        if !members.contains(&entry.0) {
            match rest_after(entry, rest) {
                Some(others) => rest = others,
                None => return false,
            }
        }
    }
    rest.is_empty()
}

/// What is behind an entry, if it is the first of these.
fn rest_after<'a>(
    entry: &(Credential, HotState),
    entries: &'a [(Credential, HotState)],
) -> Option<&'a [(Credential, HotState)]>
    ensures some { IfSome result (λ rest. entries.now ≡ entry.now ∷ rest.now) }
    ensures none { IfNone result ((rest : List (Credential × HotState)) → entry.now ∷ rest ≡ entries.now → ⊥) }
{
    let (first, rest) = entries.split_first()?;
    if is_same(entry, first) {
        Some(rest)
    } else {
        None
    }
}

/// Whether two entries are the same.
fn is_same(entry: &(Credential, HotState), other: &(Credential, HotState)) -> bool
    ensures { (result ≡ true) ↔ (entry.now ≡ other.now) }
{
    *entry == *other
}
