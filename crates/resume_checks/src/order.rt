//! Lists in the order of their keys, and searches in them.
ghost use Rattle.std.specs.Prelude.{◌≡◌, true};
ghost use Rattle.std.specs.Option.{option_copied};
ghost use Rattle.maps.specs.Maps.{has_key, has_member, value_at};
ghost use Rattle.text_forms.specs.Ids.{is_map, is_rising};
ghost use Rattle.resume_checks.specs.Order.{IsIndexOf};

use gov_ids::{ActionId, AssetId, Credential, OutRef, PoolId, TxId, Voter};

/// A key of a list, with an order that contracts state.
pub trait Key: Ord {
    ghost use Rattle.std.specs.declared.cmp.Ordering.{Ordering};

    ghost order: { Self → Self → Ordering };

    ghost is_order: { Self.cmp ≡ order };
}

impl Key for ActionId {
    ghost use Rattle.std.specs.Prelude.{refl};
    ghost use Rattle.gov_ids.specs.Orders.{action_id_cmp};

    ghost order = { action_id_cmp };

    ghost is_order = { refl };
}

impl Key for AssetId {
    ghost use Rattle.std.specs.Prelude.{refl};
    ghost use Rattle.gov_ids.specs.Orders.{asset_cmp};

    ghost order = { asset_cmp };

    ghost is_order = { refl };
}

impl Key for Credential {
    ghost use Rattle.gov_ids.specs.Orders.{credential_cmp};
    ghost use Rattle.gov_ids.specs.Derived.{credential_is};

    ghost order = { credential_cmp };

    ghost is_order = { credential_is };
}

impl Key for OutRef {
    ghost use Rattle.std.specs.Prelude.{refl};
    ghost use Rattle.gov_ids.specs.Orders.{outref_cmp};

    ghost order = { outref_cmp };

    ghost is_order = { refl };
}

impl Key for PoolId {
    ghost use Rattle.std.specs.Prelude.{refl};
    ghost use Rattle.gov_ids.specs.Orders.{pool_cmp};

    ghost order = { pool_cmp };

    ghost is_order = { refl };
}

impl Key for TxId {
    ghost use Rattle.std.specs.Prelude.{refl};
    ghost use Rattle.gov_ids.specs.Orders.{txid_cmp};

    ghost order = { txid_cmp };

    ghost is_order = { refl };
}

impl Key for Voter {
    ghost use Rattle.gov_ids.specs.Orders.{voter_cmp};
    ghost use Rattle.gov_ids.specs.Derived.{voter_is};

    ghost order = { voter_cmp };

    ghost is_order = { voter_is };
}

/// Whether each key comes before the next.
pub fn are_rising<K: Key>(keys: &[K]) -> bool
    ensures { result ≡ is_rising K.order keys.now }
{
    keys.is_sorted_by(|key, next| key.cmp(next).is_lt())
}

/// Whether the key of each entry comes before that of the next.
pub fn is_map<K: Key, V>(entries: &[(K, V)]) -> bool
    ensures { result ≡ is_map K.order entries.now }
{
    entries.is_sorted_by(|entry, next| entry.0.cmp(&next.0).is_lt())
}

/// The index of an entry with the key, by binary search.
fn index_of<K: Key, V>(entries: &[(K, V)], key: &K) -> Option<usize>
    requires { is_map K.order entries.now ≡ true }
    ensures { IsIndexOf K.order entries.now key.now result }
{
    entries.binary_search_by(|entry| entry.0.cmp(key)).ok()
}

/// The value at a key, by binary search.
pub fn find<'a, K: Key, V>(entries: &'a [(K, V)], key: &K) -> Option<&'a V>
    requires { is_map K.order entries.now ≡ true }
    ensures { option_copied result ≡ value_at K.order entries.now key.now }
{
    let at = index_of(entries, key)?;
    Some(&entries[at].1)
}

/// Whether there is an entry with the key, by binary search.
pub fn has_key<K: Key, V>(entries: &[(K, V)], key: &K) -> bool
    requires { is_map K.order entries.now ≡ true }
    ensures { result ≡ has_key K.order entries.now key.now }
{
    index_of(entries, key).is_some()
}

/// Whether a key is among the keys, by binary search.
pub fn has_member<K: Key>(keys: &[K], key: &K) -> bool
    requires { is_rising K.order keys.now ≡ true }
    ensures { result ≡ has_member K.order keys.now key.now }
{
    keys.binary_search_by(|other| other.cmp(key)).is_ok()
}
