ghost use Rattle.std.specs.Prelude.{◌≡◌, ◌∷◌, ◌++◌, [], List, ℕ, OnOk, option_map, unwrap_or};
ghost use Rattle.assets.specs.Balances.{balance_of, first_uneven};
ghost use Rattle.assets.specs.Quantities.{all_burned, all_minted};
ghost use Rattle.gov_ids.specs.declared.assets.AssetId.{AssetId};
ghost use Rattle.gov_ids.specs.Orders.{asset_cmp};
ghost use Rattle.gov_ids.specs.of_maps.Maps.{value_at};

use crate::Mint;
use crate::quantity::{burned, minted};
use gov_ids::AssetId;
use gov_ids::of_no_memory::NoMemory;
use std::alloc::Global;
use std::collections::BTreeMap;
use std::marker::Model;

/// How much is taken and how much is given of each asset, in order.
/// (The preservation of value of the formal specification)
#[derive(Drop)]
pub struct AssetBalance {
    sums: BTreeMap<AssetId, (u128, u128)>,
    // how many quantities were added: each adds less than 2^64 to a sum
    added: u64,
}

impl Model for AssetBalance {
    ghost use Rattle.std.specs.Prelude.{◌≤◌, ◌*◌, ◌^◌, ℕ, List};
    ghost use Rattle.std.specs.List.{AllByRecursion};
    ghost use Rattle.gov_ids.specs.declared.assets.AssetId.{AssetId};
    ghost use Rattle.gov_ids.specs.Orders.{asset_cmp};
    ghost use Rattle.gov_ids.specs.of_maps.Maps.{IsMap};

    ghost Value = { List (AssetId × (ℕ × ℕ)) };

    ghost view = { λ a. a.sums.entries };

    ghost invariant = { λ a. IsMap asset_cmp a.sums.entries
        × AllByRecursion (λ (e : AssetId × (ℕ × ℕ)). (e.1.0 ≤ a.added * 2 ^ 64) × (e.1.1 ≤ a.added * 2 ^ 64))
        a.sums.entries };
}

impl AssetBalance {
    /// No asset is taken or given.
    pub fn new(alloc: Global) -> AssetBalance
        ensures { result ≡ balance_of [] [] }
    {
        AssetBalance {
            sums: BTreeMap::new(alloc),
            added: 0,
        }
    }

    /// Takes what these entries have of each asset.
    /// After `NoMemory` the caller drops the balance.
    pub fn take(&mut self, entries: &[(AssetId, u64)]) -> Result<(), NoMemory>
        ensures { (taken given : List (AssetId × ℕ)) → self.old ≡ balance_of taken given
            → OnOk result (self.new ≡ balance_of (taken ++ entries.now) given) }
    {
        for (asset, quantity) in entries {
            self.raise(asset, *quantity, 0)?;
        }
        Ok(())
    }

    /// Gives what these entries have of each asset.
    /// After `NoMemory` the caller drops the balance.
    pub fn give(&mut self, entries: &[(AssetId, u64)]) -> Result<(), NoMemory>
        ensures { (taken given : List (AssetId × ℕ)) → self.old ≡ balance_of taken given
            → OnOk result (self.new ≡ balance_of taken (given ++ entries.now)) }
    {
        for (asset, quantity) in entries {
            self.raise(asset, 0, *quantity)?;
        }
        Ok(())
    }

    /// Takes what is minted of each asset, and gives what is burned of it.
    /// After `NoMemory` the caller drops the balance.
    pub fn mint(&mut self, mint: &Mint) -> Result<(), NoMemory>
        ensures { (taken given : List (AssetId × ℕ)) → self.old ≡ balance_of taken given
            → OnOk result (self.new ≡ balance_of (taken ++ all_minted mint.now) (given ++ all_burned mint.now)) }
    {
        for (asset, quantity) in mint.as_slice() {
            self.raise(asset, minted(*quantity), burned(*quantity))?;
        }
        Ok(())
    }

    // Takes and gives some of an asset.
    fn raise(&mut self, asset: &AssetId, taken: u64, given: u64) -> Result<(), NoMemory>
        ensures { (ts gs : List (AssetId × ℕ)) → self.old ≡ balance_of ts gs
            → OnOk result (self.new ≡ balance_of (ts ++ (asset.now, taken) ∷ []) (gs ++ (asset.now, given) ∷ [])) }
    {
        let added = self.added.checked_add(1).ok_or(NoMemory)?;
        let sums = self.sums_of(asset);
        let sums = (sums.0 + u128::from(taken), sums.1 + u128::from(given));
        self.sums.insert(*asset, sums)?;
        self.added = added;
        Ok(())
    }

    // How much is taken and how much is given of an asset.
    fn sums_of(&self, asset: &AssetId) -> (u128, u128)
        ensures { result ≡ unwrap_or (value_at asset_cmp self.now asset.now) (0, 0) }
    {
        self.sums.get(asset).copied().unwrap_or((0, 0))
    }

    /// The first asset of which more or less is given than taken.
    /// Its place, from 0, then how much is taken and how much is given.
    pub fn first_uneven(&self) -> Option<(usize, u128, u128)>
        ensures { result ≡ option_map (λ p. (p.0, p.1.1.0, p.1.1.1)) (first_uneven self.now) }
    {
        let mut place = 0;
        for (_, (taken, given)) in &self.sums {
            if taken != given {
                return Some((place, *taken, *given));
            }
            place += 1;
        }
        None
    }
}
