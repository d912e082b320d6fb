ghost use Rattle.std.specs.Prelude.{◌≡◌, [], IfOk, filter_map, map, option_map};
ghost use Rattle.gov_actions.specs.declared.state.HotState.TheVariants.{Hot};
ghost use Rattle.gov_ids.specs.Orders.{credential_cmp};
ghost use Rattle.maps.specs.Maps.{with_values};
ghost use Rattle.genesis_books.specs.Members.{with_hot_key};
ghost use Rattle.genesis_balance.specs.of_run_model.Genesis.{committee_of_genesis};
ghost use Rattle.tx_records.specs.Limits.{genesis_members};

use coin_frac::NoMemory;
use committee_book::HotBook;
use gov_actions::{Committee, HotState, MemberList};
use gov_ids::Credential;
use std::alloc::Global;
use std::collections::BTreeMap;
use tx_records::GenesisCommittee;

/// A member at the start: cold key, last epoch of the term, hot key.
type Member = (Credential, u64, Option<Credential>);

/// The members at the start; none if there is no committee.
pub fn members_of(committee: &Option<GenesisCommittee>) -> &[Member]
    ensures { result.now ≡ genesis_members committee.now }
{
    match committee {
        Some(committee) => committee.members.as_slice(),
        None => &[],
    }
}

/// The committee at the start, its members in order.
pub fn first_committee(
    alloc: Global,
    committee: &Option<GenesisCommittee>,
) -> Result<Option<Committee>, NoMemory>
    ensures { IfOk result (λ first. first ≡ option_map committee_of_genesis committee.now) }
{
    let Some(committee) = committee else {
        return Ok(None);
    };
    let terms = terms_of(alloc, committee.members.as_slice())?;
    let members = terms
        .iter()
        .map(|(cold, term)| (*cold, *term))
        .collect(alloc)?;
    Ok(Some(Committee {
        members: MemberList::from_vec(members),
        threshold: committee.threshold,
    }))
}

/// The last epoch of each member's term.
fn terms_of(alloc: Global, members: &[Member]) -> Result<BTreeMap<Credential, u64>, NoMemory>
    ensures { IfOk result (λ terms. terms.entries ≡ with_values credential_cmp (map (λ m. (m.0, m.1)) members.now) []) }
{
    let mut terms = BTreeMap::new(alloc);
    for (cold, term, _) in members {
        terms.insert(*cold, *term)?;
    }
    Ok(terms)
}

/// The hot keys of these members.
pub fn first_hot(alloc: Global, members: &[Member]) -> Result<HotBook, NoMemory>
    ensures { IfOk result (λ hot. hot ≡
        with_values credential_cmp (filter_map (λ m. option_map (λ key. (m.0, Hot key)) m.2) members.now) []) }
{
    let mut hot = HotBook::new(alloc);
    for (cold, _, key) in members {
        hot = with_key(hot, cold, key)?;
    }
    Ok(hot)
}

/// Adds the hot key of a member, if it has one.
fn with_key(hot: HotBook, cold: &Credential, key: &Option<Credential>) -> Result<HotBook, NoMemory>
    ensures { IfOk result (λ after. after ≡ with_hot_key cold.now key.now hot) }
{
    let mut hot = hot;
    if let Some(key) = key {
        hot.set(*cold, HotState::Hot(*key))?;
    }
    Ok(hot)
}
