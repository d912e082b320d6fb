ghost use Rattle.std.specs.Prelude.{◌≡◌, ◌≤◌, ◌<◌, ◌^◌, IfOk, length, map, sum_by};
ghost use Rattle.maps.specs.Maps.{in_order};

use assets::Assets;
use coin_frac::NoMemory;
use gov_ids::{Address, Credential, Drep, Named, OutRef, PoolId};
use std::alloc::Global;
use std::collections::BTreeSet;
use tx_records::GenesisPool;

/// The names of these entries.
pub fn names_of<T: Named>(alloc: Global, entries: &[T]) -> Result<BTreeSet<T::Name>, NoMemory>
    ensures { IfOk result (λ names. names.keys ≡ in_order T.Name.order (map T.name entries.now)) }
{
    let mut names = BTreeSet::new(alloc);
    for entry in entries {
        names.insert(entry.name())?;
    }
    Ok(names)
}

/// An entry of a list of a genesis that holds lovelace.
pub trait Holding {
    ghost use Rattle.std.specs.Prelude.{◌≡◌, ◌<◌, ◌^◌, ℕ};

    ghost lovelace_of: { Self → ℕ };

    fn lovelace(&self) -> u128
        ensures sum { result ≡ lovelace_of self.now }
        ensures fits { result < 2 ^ 65 };
}

impl Holding for (OutRef, Address, u64, Assets) {
    ghost lovelace_of = { λ o. o.2 };

    fn lovelace(&self) -> u128 {
        u128::from(self.2)
    }
}

impl Holding for (Credential, u64, u64, Option<PoolId>, Option<Drep>) {
    ghost use Rattle.std.specs.Prelude.{◌+◌};

    ghost lovelace_of = { λ a. a.1 + a.2 };

    fn lovelace(&self) -> u128 {
        u128::from(self.1) + u128::from(self.2)
    }
}

impl Holding for GenesisPool {
    ghost lovelace_of = { λ p. p.deposit };

    fn lovelace(&self) -> u128 {
        u128::from(self.deposit)
    }
}

impl Holding for (Credential, u64, u64) {
    ghost lovelace_of = { λ d. d.1 };

    fn lovelace(&self) -> u128 {
        u128::from(self.1)
    }
}

/// The lovelace that these entries hold.
pub fn lovelace_in<T: Holding>(entries: &[T]) -> u128
    requires { length entries.now ≤ 2 ^ 24 }
    ensures sum { result ≡ sum_by T.lovelace_of entries.now }
    ensures fits { result < 2 ^ 90 }
{
    let mut sum = 0;
    for entry in entries {
        sum += entry.lovelace();
    }
    sum
}
