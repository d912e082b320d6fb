ghost use Rattle.std.specs.Prelude.{◌≡◌, ◌<◌, ◌≤◌, ◌+◌, ◌-◌, true, ◌∷◌, [], length, take, OnOk, OnErr, option_map};
ghost use Rattle.std.specs.List.{list_all};
ghost use Rattle.assets.specs.Quantities.{is_held, quantity_of};
ghost use Rattle.assets.specs.Totals.{AreTotals, total_at};
ghost use Rattle.gov_ids.specs.declared.assets.AssetId.{AssetId};
ghost use Rattle.gov_ids.specs.Orders.{asset_cmp};
ghost use Rattle.gov_ids.specs.of_maps.Maps.{IsMap, entry_after};

use crate::Assets;
use gov_ids::AssetId;
use gov_ids::of_maps::keys_past;
use gov_ids::of_no_memory::NoMemory;
use std::alloc::Global;
use std::collections::BTreeMap;
use std::marker::Model;

/// How much there is of each asset, in order. An asset with a total of 0 takes no room.
#[derive(Drop)]
pub struct AssetTotals {
    totals: BTreeMap<AssetId, u128>,
    // how many quantities were added: each adds less than 2^64 to a total
    added: u64,
}

impl Model for AssetTotals {
    ghost use Rattle.std.specs.Prelude.{◌≤◌, ◌*◌, ◌^◌, ℕ, List};
    ghost use Rattle.std.specs.List.{AllByRecursion};
    ghost use Rattle.gov_ids.specs.declared.assets.AssetId.{AssetId};
    ghost use Rattle.assets.specs.Totals.{AreTotals};

    ghost Value = { List (AssetId × ℕ) };

    ghost view = { λ a. a.totals.entries };

    ghost invariant = { λ a. AreTotals a.totals.entries
        × AllByRecursion (λ (e : AssetId × ℕ). e.1 ≤ a.added * 2 ^ 64) a.totals.entries };
}

impl AssetTotals {
    /// The totals of no asset.
    pub fn new(alloc: Global) -> AssetTotals
        ensures { result ≡ [] }
    {
        AssetTotals {
            totals: BTreeMap::new(alloc),
            added: 0,
        }
    }

    /// Adds what a list has of each asset. `NoMemory` leaves the totals unchanged.
    pub fn add(&mut self, assets: &Assets) -> Result<(), NoMemory>
        ensures ok { OnOk result ((a : AssetId) →
            total_at self.new a ≡ total_at self.old a + quantity_of assets.now a) }
        ensures sound { AreTotals self.new }
        ensures err { OnErr result (self.new ≡ self.old) }
    {
        let entries = assets.as_slice();
        let added = self.raise_while(entries);
        if added < entries.len() {
            self.lower_all(&entries[..added]);
            return Err(NoMemory);
        }
        Ok(())
    }

    // Adds entries until memory runs out, and returns how many were added.
    fn raise_while(&mut self, entries: &[(AssetId, u64)]) -> usize
        requires quantities { list_all (λ e. is_held e.1) entries.now ≡ true }
        ensures was_sound { AreTotals self.old }
        ensures within { result ≤ length entries.now }
        ensures totals { (a : AssetId) →
            total_at self.new a ≡ total_at self.old a + quantity_of (take result entries.now) a }
        ensures sound { AreTotals self.new }
    {
        let _totals = &self.totals;
        let mut added = 0;
        for (asset, quantity) in entries {
            if self.raise(asset, *quantity).is_err() {
                return added;
            }
            added += 1;
        }
        added
    }

    // Adds some of an asset.
    fn raise(&mut self, asset: &AssetId, quantity: u64) -> Result<(), NoMemory>
        requires some { 0 < quantity }
        ensures ok { OnOk result ((a : AssetId) →
            total_at self.new a ≡ total_at self.old a + quantity_of ((asset.now, quantity) ∷ []) a) }
        ensures err { OnErr result (self.new ≡ self.old) }
        ensures sound { AreTotals self.new }
    {
        let added = self.added.checked_add(1).ok_or(NoMemory)?;
        let total = self.total(asset) + u128::from(quantity);
        self.totals.insert(*asset, total)?;
        self.added = added;
        Ok(())
    }

    /// Subtracts what a list has of each asset.
    pub fn subtract(&mut self, assets: &Assets)
        requires enough { (a : AssetId) → quantity_of assets.now a ≤ total_at self.old a }
        ensures totals { (a : AssetId) → total_at self.new a ≡ total_at self.old a - quantity_of assets.now a }
        ensures sound { AreTotals self.new }
    {
        self.lower_all(assets.as_slice());
    }

    // Subtracts what these entries have of each asset.
    fn lower_all(&mut self, entries: &[(AssetId, u64)])
        requires enough { (a : AssetId) → quantity_of entries.now a ≤ total_at self.old a }
        ensures totals { (a : AssetId) → total_at self.new a ≡ total_at self.old a - quantity_of entries.now a }
        ensures sound { AreTotals self.new }
    {
        let _totals = &self.totals;
        for (asset, quantity) in entries {
            self.lower(asset, *quantity);
        }
    }

    // Subtracts some of an asset.
    fn lower(&mut self, asset: &AssetId, quantity: u64)
        requires enough { quantity ≤ total_at self.old asset.now }
        ensures totals { (a : AssetId) →
            total_at self.new a ≡ total_at self.old a - quantity_of ((asset.now, quantity) ∷ []) a }
        ensures sound { AreTotals self.new }
    {
        let left = self.total(asset) - u128::from(quantity);
        if left == 0 {
            self.totals.remove(asset);
        } else if let Some(total) = self.totals.get_mut(asset) {
            *total = left;
        }
    }

    /// How much there is of an asset.
    pub fn total(&self, a: &AssetId) -> u128
        ensures value { result ≡ total_at self.now a.now }
        ensures in_order { IsMap asset_cmp self.now }
    {
        self.totals.get(a).copied().unwrap_or(0)
    }

    /// The next asset in order after this one, or the first of all, with its total.
    pub fn next(&self, after: Option<&AssetId>) -> Option<(AssetId, u128)>
        ensures { result ≡ entry_after asset_cmp (option_map (λ a. a.now) after.entry) self.now }
    {
        let (asset, total) = self.totals.range(keys_past(after)).next()?;
        Some((*asset, *total))
    }
}
