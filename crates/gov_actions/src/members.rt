ghost use Rattle.std.specs.Prelude.{◌≡◌, IsTrue, ◌↔◌, IfOk};
ghost use Rattle.std.specs.List.{list_any};
ghost use Rattle.gov_ids.specs.Orders.{credential_cmp};
ghost use Rattle.gov_ids.specs.Same.{same_credential};
ghost use Rattle.gov_ids.specs.of_maps.Maps.{IsMap};

use gov_ids::Credential;
use pparams::of_coin_frac::NoMemory;
use std::alloc::Global;
use std::marker::Model;

/// Cold keys, each with the last epoch of its term. Contracts see the list of them.
/// If the keys are in order when the list is made, `contains` finds one by binary search.
#[derive(Debug, Drop)]
pub struct MemberList {
    members: Vec<(Credential, u64)>,
    in_order: bool,
}

impl Model for MemberList {
    ghost use Rattle.std.specs.Prelude.{ℕ, List, IsTrue, ◌↔◌};
    ghost use Rattle.gov_ids.specs.declared.Credential.{Credential};
    ghost use Rattle.gov_ids.specs.Orders.{credential_cmp};
    ghost use Rattle.gov_ids.specs.of_maps.Maps.{IsMap};

    ghost Value = { List (Credential × ℕ) };

    ghost view = { λ a. a.members.items };

    ghost invariant = { λ a. IsTrue a.in_order ↔ IsMap credential_cmp a.members.items };
}

impl MemberList {
    /// The list of these members. It takes no memory.
    pub fn from_vec(members: Vec<(Credential, u64)>) -> Self
        ensures { result ≡ members.items }
    {
        let in_order = is_in_order(members.as_slice());
        MemberList { members, in_order }
    }

    /// The members again. It takes no memory.
    pub fn into_vec(self) -> Vec<(Credential, u64)>
        ensures { result.items ≡ self }
    {
        self.members
    }

    /// The members as a slice.
    pub fn as_slice(&self) -> &[(Credential, u64)]
        ensures { result.now ≡ self.now }
    {
        self.members.as_slice()
    }

    /// Whether a cold key is among them. (CIP-1694, The constitutional committee)
    pub fn contains(&self, cold: &Credential) -> bool
        ensures { result ≡ list_any (λ m. same_credential m.0 cold.now) self.now }
    {
        if self.in_order {
            is_found(self.members.as_slice(), cold)
        } else {
            is_among(self.members.as_slice(), cold)
        }
    }

    /// A copy in memory of its own.
    pub fn copied(&self, alloc: Global) -> Result<Self, NoMemory>
        ensures { IfOk result (λ copy. copy ≡ self.now) }
    {
        Ok(Self::from_vec(Vec::from_slice(alloc, self.as_slice())?))
    }
}

// Whether each cold key comes before the next.
fn is_in_order(members: &[(Credential, u64)]) -> bool
    ensures { IsTrue result ↔ IsMap credential_cmp members.now }
{
    members.is_sorted_by(|(cold, _), (next, _)| cold < next)
}

// Whether a cold key is one of these, which are in order.
fn is_found(members: &[(Credential, u64)], cold: &Credential) -> bool
    requires { IsMap credential_cmp members.now }
    ensures { result ≡ list_any (λ m. same_credential m.0 cold.now) members.now }
{
    members
        .binary_search_by_key(cold, |(member, _)| *member)
        .is_ok()
}

// Whether a cold key is one of these, in any order.
fn is_among(members: &[(Credential, u64)], cold: &Credential) -> bool
    ensures { result ≡ list_any (λ m. same_credential m.0 cold.now) members.now }
{
    members.iter().any(|(member, _)| member == cold)
}
