ghost use Rattle.std.specs.Prelude.{◌≡◌, IsTrue, ◌↔◌};
ghost use Rattle.gov_ids.specs.Orders.{credential_cmp};
ghost use Rattle.maps.specs.Maps.{IsMap, value_at};

use gov_ids::Credential;
use gov_model::of_gov_actions::HotState;
use std::marker::Model;

/// What cold keys have authorized; contracts see the list. From its making on it knows whether the
/// keys are in order; if they are, it finds one by binary search.
/// (CIP-1694, The constitutional committee; that it knows its order is own)
#[derive(Drop)]
pub struct HotList {
    entries: Vec<(Credential, HotState)>,
    in_order: bool,
}

impl Model for HotList {
    ghost use Rattle.std.specs.Prelude.{List, IsTrue, ◌↔◌};
    ghost use Rattle.gov_model.specs.of_gov_actions.declared.state.HotState.{HotState};
    ghost use Rattle.gov_ids.specs.declared.Credential.{Credential};
    ghost use Rattle.gov_ids.specs.Orders.{credential_cmp};
    ghost use Rattle.maps.specs.Maps.{IsMap};

    ghost Value = { List (Credential × HotState) };

    ghost view = { λ a. a.entries.items };

    ghost invariant = { λ a. IsTrue a.in_order ↔ IsMap credential_cmp a.entries.items };
}

impl HotList {
    /// The list of these entries, without taking memory.
    pub fn from_vec(entries: Vec<(Credential, HotState)>) -> Self
        ensures { result ≡ entries.items }
    {
        let in_order = is_in_order(entries.as_slice());
        HotList { entries, in_order }
    }

    /// The entries again, without taking memory.
    pub fn into_vec(self) -> Vec<(Credential, HotState)>
        ensures { result.items ≡ self }
    {
        self.entries
    }

    /// The entries, in the order of the list.
    pub fn as_slice(&self) -> &[(Credential, HotState)]
        ensures { result.now ≡ self.now }
    {
        self.entries.as_slice()
    }

    /// What a cold key has authorized; its first entry, if it has several.
    /// (CIP-1694, The constitutional committee)
    pub fn get(&self, cold: &Credential) -> Option<HotState>
        ensures { result ≡ value_at credential_cmp self.now cold.now }
    {
        if self.in_order {
            found_in(self.entries.as_slice(), cold)
        } else {
            first_in(self.entries.as_slice(), cold)
        }
    }
}

/// Whether each cold key comes before the next.
fn is_in_order(entries: &[(Credential, HotState)]) -> bool
    ensures { IsTrue result ↔ IsMap credential_cmp entries.now }
{
    entries.is_sorted_by(|(cold, _), (next, _)| cold < next)
}

/// What a cold key has authorized, where the keys are in order.
fn found_in(entries: &[(Credential, HotState)], cold: &Credential) -> Option<HotState>
    requires { IsMap credential_cmp entries.now }
    ensures { result ≡ value_at credential_cmp entries.now cold.now }
{
    match entries.binary_search_by_key(cold, |entry| entry.0) {
        Ok(i) => Some(entries[i].1),
        Err(_) => None,
    }
}

/// What a cold key has authorized, in any order.
fn first_in(entries: &[(Credential, HotState)], cold: &Credential) -> Option<HotState>
    ensures { result ≡ value_at credential_cmp entries.now cold.now }
{
    for (key, state) in entries {
        if key == cold {
            return Some(*state);
        }
    }
    None
}
