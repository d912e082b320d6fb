ghost use Rattle.std.specs.Prelude.{◌≡◌, IfOk, map};
ghost use Rattle.maps.specs.Words.{repeats};

use crate::{Account, AssetId, Credential, OutRef, PoolId};
use no_memory::NoMemory;
use std::alloc::Global;
use std::collections::BTreeSet;

/// An id that names an entry of a list, with an order that contracts state.
pub trait Name: Ord + Copy + Drop {
    ghost use Rattle.std.specs.declared.cmp.Ordering.{Ordering};

    ghost order: { Self → Self → Ordering };

    ghost is_order: { Self.cmp ≡ order };
}

impl Name for Account {
    ghost use Rattle.gov_ids.specs.Orders.{account_cmp};
    ghost use Rattle.gov_ids.specs.Derived.{account_is};

    ghost order = { account_cmp };

    ghost is_order = { account_is };
}

impl Name for AssetId {
    ghost use Rattle.std.specs.Prelude.{refl};
    ghost use Rattle.gov_ids.specs.Orders.{asset_cmp};

    ghost order = { asset_cmp };

    ghost is_order = { refl };
}

impl Name for Credential {
    ghost use Rattle.gov_ids.specs.Orders.{credential_cmp};
    ghost use Rattle.gov_ids.specs.Derived.{credential_is};

    ghost order = { credential_cmp };

    ghost is_order = { credential_is };
}

impl Name for OutRef {
    ghost use Rattle.std.specs.Prelude.{refl};
    ghost use Rattle.gov_ids.specs.Orders.{outref_cmp};

    ghost order = { outref_cmp };

    ghost is_order = { refl };
}

impl Name for PoolId {
    ghost use Rattle.std.specs.Prelude.{refl};
    ghost use Rattle.gov_ids.specs.Orders.{pool_cmp};

    ghost order = { pool_cmp };

    ghost is_order = { refl };
}

/// An entry of a list that has a name: it is an id, or begins with one.
pub trait Named {
    /// The id of an entry.
    type Name: Name;

    ghost name: { Self → Self.Name };

    /// The name of the entry.
    fn name(&self) -> Self::Name
        ensures { result ≡ name self.now };
}

impl Named for Credential {
    type Name = Credential;

    ghost name = { λ c. c };

    fn name(&self) -> Credential {
        *self
    }
}

impl<N: Name, A> Named for (N, A) {
    type Name = N;

    ghost name = { λ e. e.0 };

    fn name(&self) -> N {
        self.0
    }
}

impl<N: Name, A, B> Named for (N, A, B) {
    type Name = N;

    ghost name = { λ e. e.0 };

    fn name(&self) -> N {
        self.0
    }
}

impl<N: Name, A, B, C> Named for (N, A, B, C) {
    type Name = N;

    ghost name = { λ e. e.0 };

    fn name(&self) -> N {
        self.0
    }
}

impl<N: Name, A, B, C, D> Named for (N, A, B, C, D) {
    type Name = N;

    ghost name = { λ e. e.0 };

    fn name(&self) -> N {
        self.0
    }
}

/// Whether two entries have the same name.
pub fn repeats_a_name<T: Named>(alloc: Global, entries: &[T]) -> Result<bool, NoMemory>
    ensures { IfOk result (λ twice. twice ≡ repeats T.Name.order (map T.name entries.now)) }
{
    let mut names = BTreeSet::new(alloc);
    for entry in entries {
        if !names.insert(entry.name())? {
            return Ok(true);
        }
    }
    Ok(false)
}
