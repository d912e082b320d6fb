ghost use Rattle.std.specs.Prelude.{◌≡◌, [], IsTrue, ◌↔◌, IfOk, length};
ghost use Rattle.gov_ids.specs.Same.{same_credential};
ghost use Rattle.gov_ids.specs.of_maps.Words.{among};

use gov_ids::Credential;
use gov_ids::of_maps::set_of;
use gov_ids::of_no_memory::NoMemory;
use std::alloc::Global;
use std::collections::BTreeSet;
use std::marker::Model;

// The longest list that is searched item by item. A longer one has a set beside it.
const SHORT: usize = 8;

/// A list of credentials. Contracts see the list of its items.
/// A list of more than eight has a set of them, so that `contains` is fast.
#[derive(Debug, Drop)]
pub struct CredentialList {
    items: Vec<Credential>,
    set: Option<BTreeSet<Credential>>,
}

impl Model for CredentialList {
    ghost use Rattle.std.specs.Prelude.{List};
    ghost use Rattle.std.specs.Option.{ForSome};
    ghost use Rattle.gov_ids.specs.declared.Credential.{Credential};
    ghost use Rattle.credential_list.specs.Searched.{HasAll};

    ghost Value = { List Credential };

    ghost view = { λ a. a.items.items };

    ghost invariant = { λ a. ForSome a.set (λ s. HasAll s.keys a.items.items) };
}

impl CredentialList {
    /// The empty list. It takes no memory.
    pub fn new(alloc: Global) -> Self
        ensures { result ≡ [] }
    {
        CredentialList {
            items: Vec::new(alloc),
            set: None,
        }
    }

    /// The list of these credentials.
    /// `NoMemory`: only with more than eight; a shorter list takes no memory.
    pub fn from_vec(alloc: Global, items: Vec<Credential>) -> Result<Self, NoMemory>
        ensures { IfOk result (λ list. list ≡ items.items) }
    {
        if items.len() <= SHORT {
            return Ok(CredentialList { items, set: None });
        }
        let set = set_of(alloc, items.as_slice())?;
        Ok(CredentialList {
            items,
            set: Some(set),
        })
    }

    /// The credentials as a slice.
    pub fn as_slice(&self) -> &[Credential]
        ensures { result.now ≡ self.now }
    {
        self.items.as_slice()
    }

    /// How many credentials there are.
    pub fn len(&self) -> usize
        ensures { result ≡ length self.now }
    {
        self.items.len()
    }

    /// Whether the list is empty.
    pub fn is_empty(&self) -> bool
        ensures { IsTrue result ↔ (self.now ≡ []) }
    {
        self.items.is_empty()
    }

    /// Whether a credential is in the list. It compares at most eight, or asks the set.
    pub fn contains(&self, key: &Credential) -> bool
        ensures { result ≡ among same_credential key.now self.now }
    {
        match &self.set {
            Some(set) => set.contains(key),
            None => is_among(self.items.as_slice(), key),
        }
    }

    /// A copy in memory of its own.
    pub fn copied(&self, alloc: Global) -> Result<Self, NoMemory>
        ensures { IfOk result (λ copy. copy ≡ self.now) }
    {
        Self::from_vec(alloc, Vec::from_slice(alloc, self.as_slice())?)
    }
}

// Whether a credential is one of these.
fn is_among(items: &[Credential], key: &Credential) -> bool
    ensures { result ≡ among same_credential key.now items.now }
{
    items.iter().any(|item| key == item)
}
