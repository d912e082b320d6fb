ghost use Rattle.std.specs.Prelude.{◌≡◌, [], IfOk};
ghost use Rattle.gov_ids.specs.Orders.{credential_cmp};
ghost use Rattle.gov_model.specs.Sides.{members_of};
ghost use Rattle.maps.specs.Maps.{with_values, without_keys};

use coin_frac::{NoMemory, Unit};
use credential_list::CredentialList;
use gov_actions::{Committee, MemberList};
use gov_ids::Credential;
use std::alloc::Global;
use std::collections::BTreeMap;

// The committee without the removed members, then with those that are added or get another term.
// Those that stay are put into a tree first, so that no addition scans a list.
pub(crate) fn updated(
    alloc: Global,
    old: Option<Committee>,
    remove: &CredentialList,
    add: &[(Credential, u64)],
    threshold: Unit,
) -> Result<Committee, NoMemory>
    ensures threshold { IfOk result (λ c. c.threshold ≡ threshold) }
    ensures members { IfOk result (λ c. c.members ≡
        with_values credential_cmp add.now (with_values credential_cmp (without_keys credential_cmp remove.now (members_of old)) [])) }
{
    let staying = without(alloc, old, remove);
    let members = with(BTreeMap::new(alloc), &staying)?;
    let members = with(members, add)?;
    Ok(Committee {
        members: MemberList::from_vec(members.into_iter().collect(alloc)?),
        threshold,
    })
}

// The members that are not among some keys; none without a committee.
fn without(alloc: Global, old: Option<Committee>, keys: &CredentialList) -> Vec<(Credential, u64)>
    ensures { result.items ≡ without_keys credential_cmp keys.now (members_of old) }
{
    let Some(committee) = old else {
        return Vec::new(alloc);
    };
    let mut members = committee.members.into_vec();
    members.retain(|(cold, _)| !keys.contains(cold));
    members
}

// Each of these in turn with its term, in key order; it replaces an earlier term.
fn with(
    mut members: BTreeMap<Credential, u64>,
    come: &[(Credential, u64)],
) -> Result<BTreeMap<Credential, u64>, NoMemory>
    ensures { IfOk result (λ after. after.entries ≡ with_values credential_cmp come.now members.entries) }
{
    for (cold, term) in come {
        members.insert(*cold, *term)?;
    }
    Ok(members)
}
