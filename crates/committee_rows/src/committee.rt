ghost use Rattle.std.specs.Prelude.{◌≡◌, map, Some, None, IfOk, option_map};
ghost use Rattle.committee_rows.specs.Shown.{IsGoverning, governing_shown};
ghost use Rattle.shown_lists.specs.Only.{IsOnly};

use coin_frac::Unit;
use gov_actions::{Committee, HotState, MemberList};
use gov_ids::Credential;
use no_memory::NoMemory;
use resume_checks::is_map;
use shown_lists::{MemberRow, hot_of};
use std::alloc::Global;

/// The committee, if there is one, and what cold keys authorized, in order of the keys.
pub type Governing = (Option<Committee>, Vec<(Credential, HotState)>);

/// The committee and what cold keys authorized, if these lines show them: the threshold, the
/// members in order, each with what its cold key authorized, and what other cold keys did.
/// `NoMemory` may come at any time.
pub fn governing_of(
    alloc: Global,
    threshold: Option<Unit>,
    members: &[MemberRow],
    others: &[(Credential, HotState)],
) -> Result<Option<Governing>, NoMemory>
    ensures { IfOk result (λ r. IsOnly IsGoverning governing_shown (threshold, (members.now, others.now))
        (option_map (λ g. (g.0, g.1.items)) r)) }
{
    match threshold {
        Some(share) => with_committee(alloc, share, members, others),
        None => without_committee(alloc, members, others),
    }
}

/// A committee of this threshold and what cold keys authorized, if these lines show them.
fn with_committee(
    alloc: Global,
    threshold: Unit,
    rows: &[MemberRow],
    others: &[(Credential, HotState)],
) -> Result<Option<Governing>, NoMemory>
    ensures { IfOk result (λ r. IsOnly IsGoverning governing_shown (Some threshold, (rows.now, others.now))
        (option_map (λ g. (g.0, g.1.items)) r)) }
{
    let members = members_in(alloc, rows)?;
    if !is_map(members.as_slice()) {
        return Ok(None);
    }
    let Some(hot) = hot_of(alloc, &members, rows, others)? else {
        return Ok(None);
    };
    let committee = Committee { members, threshold };
    Ok(Some((Some(committee), hot)))
}

/// The members of these rows, each with its term.
fn members_in(alloc: Global, rows: &[MemberRow]) -> Result<MemberList, NoMemory>
    ensures { IfOk result (λ members. members ≡ map (λ r. r.0) rows.now) }
{
    Ok(MemberList::from_vec(terms_in(alloc, rows)?))
}

/// Their cold keys, each with its term.
fn terms_in(alloc: Global, rows: &[MemberRow]) -> Result<Vec<(Credential, u64)>, NoMemory>
    ensures { IfOk result (λ terms. terms.items ≡ map (λ r. r.0) rows.now) }
{
    Ok(rows.iter().map(|row| row.0).collect(alloc)?)
}

/// No committee, and what cold keys authorized, if these lines show it.
fn without_committee(
    alloc: Global,
    rows: &[MemberRow],
    others: &[(Credential, HotState)],
) -> Result<Option<Governing>, NoMemory>
    ensures { IfOk result (λ r. IsOnly IsGoverning governing_shown (None, (rows.now, others.now))
        (option_map (λ g. (g.0, g.1.items)) r)) }
{
    if rows.is_empty() && is_map(others) {
        Ok(Some((None, Vec::from_slice(alloc, others)?)))
    } else {
        Ok(None)
    }
}
