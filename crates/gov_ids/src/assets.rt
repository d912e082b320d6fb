ghost use Rattle.std.specs.Prelude.{◌≡◌, ◌≤◌, length};

use crate::words::order28;
use std::cmp::Ordering;
use std::marker::Model;

/// The greatest length of an asset's name, in bytes. (AssetName of cardano-ledger)
pub const NAME_LIMIT: usize = 32;

/// An asset's name: at most 32 bytes, stored inline. Contracts see its bytes.
/// (AssetName of cardano-ledger)
#[derive(Clone, Copy)]
pub struct AssetName {
    // the bytes after the name are 0
    bytes: [u8; 32],
    used: u8,
}

impl Model for AssetName {
    ghost use Rattle.std.specs.Prelude.{◌≡◌, ◌≤◌, ℕ, List, length, take};
    ghost use Rattle.gov_ids.specs.AssetNames.{padded};

    ghost Value = { List ℕ };

    ghost view = { λ a. take a.used a.bytes };

    ghost invariant = { λ a. (length (take a.used a.bytes) ≡ a.used) × (a.used ≤ 32)
        × (a.bytes ≡ padded (take a.used a.bytes)) };

    ghost inverse = { λ n. record { bytes = padded n; used = length n } };
}

impl AssetName {
    /// The name of at most 32 bytes.
    pub fn new(bytes: &[u8]) -> AssetName
        requires { length bytes.now ≤ 32 }
        ensures { result ≡ bytes.now }
    {
        let mut name = [0; 32];
        name[..bytes.len()].copy_from_slice(bytes);
        AssetName {
            bytes: name,
            used: bytes.len() as u8,
        }
    }

    /// The bytes of the name.
    pub fn bytes(&self) -> &[u8]
        ensures value { result.now ≡ self.now }
        ensures few { length result.now ≤ 32 }
    {
        &self.bytes[..usize::from(self.used)]
    }
}

impl PartialEq for AssetName {
    ghost use Rattle.std.specs.Prelude.{◌==◌};
    ghost use Rattle.std.specs.Cmp.Lexicographic.{pointwise, lists_per};
    ghost use Rattle.std.specs.Cmp.Rules.{comparing};
    ghost use Rattle.std.proofs.Common.{rules};

    ghost eq = { pointwise ◌==◌ };

    ghost laws = { Prim.search (comparing, rules) };

    fn eq(&self, other: &Self) -> bool {
        self.bytes() == other.bytes()
    }
}

impl Eq for AssetName {
    ghost use Rattle.std.specs.Cmp.Rules.{comparing};
    ghost use Rattle.std.proofs.Common.{rules};

    ghost laws = { Prim.search (comparing, rules) };
}

impl PartialOrd for AssetName {
    ghost use Rattle.std.specs.Ordering.{as_partial_cmp, nat_cmp};
    ghost use Rattle.std.specs.Cmp.Lexicographic.{slice_cmp};
    ghost use Rattle.std.specs.Cmp.{partial_order_from_own_ties};
    ghost use Rattle.std.specs.Cmp.Rules.{comparing};
    ghost use Rattle.std.proofs.Common.{rules};

    ghost partial_cmp = { as_partial_cmp (slice_cmp nat_cmp) };

    ghost laws = { partial_order_from_own_ties (Prim.search (comparing, rules)) (Prim.search (comparing, rules)) };

    fn partial_cmp(&self, other: &Self) -> Option<Ordering> {
        Some(self.cmp(other))
    }
}

// By the bytes.
impl Ord for AssetName {
    ghost use Rattle.std.specs.Prelude.{refl};
    ghost use Rattle.std.specs.Ordering.{nat_cmp};
    ghost use Rattle.std.specs.Cmp.Lexicographic.{slice_cmp};
    ghost use Rattle.std.specs.Cmp.Rules.{comparing};
    ghost use Rattle.std.proofs.Common.{rules};

    ghost cmp = { slice_cmp nat_cmp };

    ghost total = { Prim.search (comparing, rules) };

    ghost matches_partial_cmp = { λ a b. refl };

    ghost matches_eq = { Prim.search (comparing, rules) };

    fn cmp(&self, other: &Self) -> Ordering {
        self.bytes().cmp(other.bytes())
    }
}

/// A native asset: the hash of its minting policy, and its name under the policy.
/// (AssetId of the formal specification; PolicyID and AssetName of cardano-ledger)
#[derive(Clone, Copy, PartialEq, Eq)]
pub struct AssetId {
    pub policy: [u8; 28],
    pub name: AssetName,
}

impl PartialOrd for AssetId {
    ghost use Rattle.std.specs.Ordering.{as_partial_cmp, nat_cmp, on, then_cmp};
    ghost use Rattle.std.specs.Cmp.Lexicographic.{slice_cmp};
    ghost use Rattle.std.specs.Cmp.{partial_order_from_own_ties};
    ghost use Rattle.std.specs.Cmp.Rules.{comparing};
    ghost use Rattle.std.proofs.Common.{rules};

    ghost partial_cmp = { as_partial_cmp (then_cmp (on (λ a. a.policy) (slice_cmp nat_cmp)) (on (λ a. a.name) (slice_cmp nat_cmp))) };

    ghost laws = { partial_order_from_own_ties (Prim.search (comparing, rules)) (Prim.search (comparing, rules)) };

    fn partial_cmp(&self, other: &Self) -> Option<Ordering> {
        Some(self.cmp(other))
    }
}

// By the policy, then by the name.
impl Ord for AssetId {
    ghost use Rattle.std.specs.Prelude.{refl};
    ghost use Rattle.std.specs.Ordering.{nat_cmp, on, then_cmp};
    ghost use Rattle.std.specs.Cmp.Lexicographic.{slice_cmp};
    ghost use Rattle.std.specs.Cmp.Rules.{comparing};
    ghost use Rattle.std.proofs.Common.{rules};

    ghost cmp = { then_cmp (on (λ a. a.policy) (slice_cmp nat_cmp)) (on (λ a. a.name) (slice_cmp nat_cmp)) };

    ghost total = { Prim.search (comparing, rules) };

    ghost matches_partial_cmp = { λ a b. refl };

    ghost matches_eq = { Prim.search (comparing, rules) };

    fn cmp(&self, other: &Self) -> Ordering {
        order28(&self.policy, &other.policy).then(self.name.cmp(&other.name))
    }
}
