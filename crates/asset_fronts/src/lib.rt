//! The part of sorted lists of assets that decides which asset is the first unbalanced one.
#![tactic(auto)]

ghost use Rattle.std.specs.Prelude.{◌≡◌, ◌+◌, ◌<◌, ◌≤◌, ◌^◌, ◌++◌, List, ℕ};
ghost use Rattle.asset_fronts.specs.Fronts.{front, lowest_of};
ghost use Rattle.gov_ids.specs.declared.assets.AssetId.{AssetId};
ghost use Rattle.maps.specs.Words.{amount};

use gov_ids::AssetId;
use std::cmp::Ordering;

/// The first entries of a list, one more than `named`: how many assets a transaction names.
/// They are all entries, or one of them is of an asset that the transaction does not name.
/// Later entries change nothing about the first unbalanced asset.
pub fn front(entries: &[(AssetId, u64)], named: usize) -> &[(AssetId, u64)]
    ensures { result.now ≡ front named entries.now }
{
    if named < entries.len() {
        &entries[..named + 1]
    } else {
        entries
    }
}

/// The lowest asset of the lists so far and this one, with the sum of their first entries of it.
/// It takes no memory.
pub fn lowest_with(
    lowest: Option<(AssetId, u128)>,
    entries: &[(AssetId, u64)],
) -> Option<(AssetId, u128)>
    requires fits { amount (λ l. l.1) lowest + 2 ^ 64 ≤ 2 ^ 128 }
    ensures lowest { (taken : List (AssetId × ℕ)) → lowest ≡ lowest_of taken
        → result ≡ lowest_of (taken ++ front 0 entries.now) }
    ensures fits { amount (λ l. l.1) result ≤ amount (λ l. l.1) lowest + 2 ^ 64 }
{
    let Some((asset, quantity)) = entries.first() else {
        return lowest;
    };
    let quantity = u128::from(*quantity);
    let Some((low, sum)) = lowest else {
        return Some((*asset, quantity));
    };
    match asset.cmp(&low) {
        Ordering::Less => Some((*asset, quantity)),
        Ordering::Equal => Some((low, sum + quantity)),
        Ordering::Greater => Some((low, sum)),
    }
}
