ghost use Rattle.std.specs.Prelude.{◌≡◌, true, [], IfOk, IsTrue, ◌↔◌};
ghost use Rattle.std.specs.List.{list_all};
ghost use Rattle.gov_ids.specs.Orders.{asset_cmp};
ghost use Rattle.gov_ids.specs.of_maps.Maps.{IsMap, with_values};

use crate::quantity::Quantity;
use gov_ids::AssetId;
use gov_ids::of_no_memory::NoMemory;
use listed::{Boxed, Listed};
use std::alloc::Global;
use std::collections::BTreeMap;
use std::marker::Model;

/// Assets with their quantities, in order, each once. Contracts see the list.
/// An empty list owns nothing, and takes the room of a pointer.
/// (Value of the formal specification)
pub struct AssetList<Q: Quantity> {
    entries: Option<Boxed<Listed<(AssetId, Q)>>>,
}

// A derived drop would be proved again, part by part, in each crate above.
impl<Q: Quantity> Drop for AssetList<Q> {
    fn drop(self) {
        let AssetList { entries: _entries } = self;
    }
}

impl<Q: Quantity> Model for AssetList<Q> {
    ghost use Rattle.std.specs.Prelude.{◌≡◌, List, [], true, unwrap_or};
    ghost use Rattle.std.specs.List.{list_all};
    ghost use Rattle.gov_ids.specs.declared.assets.AssetId.{AssetId};
    ghost use Rattle.gov_ids.specs.Orders.{asset_cmp};
    ghost use Rattle.gov_ids.specs.of_maps.Maps.{IsMap};

    ghost Value = { List (AssetId × Q) };

    ghost view = { λ a. unwrap_or a.entries [] };

    ghost invariant = { λ a. IsMap asset_cmp (unwrap_or a.entries [])
        × (list_all (λ (e : AssetId × Q). Q.is_quantity e.1) (unwrap_or a.entries []) ≡ true) };
}

impl<Q: Quantity> AssetList<Q> {
    /// The list of no asset.
    pub fn none() -> AssetList<Q>
        ensures { result ≡ [] }
    {
        AssetList { entries: None }
    }

    /// The list of these entries, in any order; an asset's later entry replaces its earlier one.
    pub fn from_entries(alloc: Global, entries: &[(AssetId, Q)]) -> Result<AssetList<Q>, NoMemory>
        requires quantities { list_all (λ e. Q.is_quantity e.1) entries.now ≡ true }
        ensures { IfOk result (λ list. list ≡ with_values asset_cmp entries.now []) }
    {
        if entries.is_empty() {
            return Ok(AssetList::none());
        }
        let ordered = in_order(alloc, entries)?;
        let entries = listed(alloc, &ordered)?;
        let entries = Boxed::new(alloc, Listed::from_vec(entries))?;
        Ok(AssetList {
            entries: Some(entries),
        })
    }

    /// A copy in memory of its own.
    pub fn copied(&self, alloc: Global) -> Result<AssetList<Q>, NoMemory>
        ensures { IfOk result (λ copy. copy ≡ self.now) }
    {
        let Some(entries) = &self.entries else {
            return Ok(AssetList::none());
        };
        let entries = entries.get().as_slice().iter().copied().collect(alloc)?;
        let entries = Boxed::new(alloc, Listed::from_vec(entries))?;
        Ok(AssetList {
            entries: Some(entries),
        })
    }

    /// The entries, in order of policy, then of name.
    pub fn as_slice(&self) -> &[(AssetId, Q)]
        ensures value { result.now ≡ self.now }
        ensures in_order { IsMap asset_cmp self.now }
        ensures quantities { list_all (λ e. Q.is_quantity e.1) self.now ≡ true }
    {
        match &self.entries {
            Some(entries) => entries.get().as_slice(),
            None => &[],
        }
    }

    /// Whether there is no asset.
    pub fn is_empty(&self) -> bool
        ensures { IsTrue result ↔ (self.now ≡ []) }
    {
        self.as_slice().is_empty()
    }
}

// The entries as a map: a later one of an asset replaces an earlier one.
fn in_order<Q: Quantity>(
    alloc: Global,
    entries: &[(AssetId, Q)],
) -> Result<BTreeMap<AssetId, Q>, NoMemory>
    ensures { IfOk result (λ ordered. ordered.entries ≡ with_values asset_cmp entries.now []) }
{
    let mut ordered = BTreeMap::new(alloc);
    for (asset, quantity) in entries {
        ordered.insert(*asset, *quantity)?;
    }
    Ok(ordered)
}

// The entries of a map as a list, with room for no more than they need.
fn listed<Q: Quantity>(
    alloc: Global,
    ordered: &BTreeMap<AssetId, Q>,
) -> Result<Vec<(AssetId, Q)>, NoMemory>
    ensures { IfOk result (λ list. list.items ≡ ordered.now.entries) }
{
    let mut list = Vec::with_capacity(alloc, ordered.len())?;
    for (asset, quantity) in ordered {
        list.push((*asset, *quantity))?;
    }
    Ok(list)
}
