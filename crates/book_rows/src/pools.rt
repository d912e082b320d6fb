ghost use Rattle.std.specs.Prelude.{◌≡◌};
ghost use Rattle.book_rows.specs.Rows.{pool_of_row};

use book_records::{Pool, PoolTerms};
use gov_ids::PoolId;
use listed::Listed;
use no_memory::NoMemory;
use row_items::RowKind;
use std::alloc::Global;

/// Pools, each shown without its future terms, and then by those.
pub struct PoolRows;

/// A pool with these future terms.
fn with_future(pool: &Pool, terms: &PoolTerms) -> Pool
    ensures { result ≡ record pool.now { future = Some terms.now } }
{
    Pool {
        deposit: pool.deposit,
        terms: pool.terms,
        future: Some(*terms),
        retires: pool.retires,
    }
}

/// The pool with the terms behind its row, if they are of this pool, and at most one.
fn pool_of(row: &(PoolId, Pool), next: &[(PoolId, PoolTerms)]) -> Option<(PoolId, Pool)>
    ensures { result ≡ pool_of_row (row.now, next.now) }
{
    if row.1.future.is_some() {
        return None;
    }
    match next {
        [] => Some(*row),
        [(id, terms)] => {
            if *id == row.0 {
                Some((row.0, with_future(&row.1, terms)))
            } else {
                None
            }
        }
        _ => None,
    }
}

impl RowKind for PoolRows {
    type Row = ((PoolId, Pool), Listed<(PoolId, PoolTerms)>);

    type Item = (PoolId, Pool);

    ghost use Rattle.std.specs.Prelude.{true};
    ghost use Rattle.checkpoint_lists.specs.Shown.{pool_row};

    ghost shows = { pool_row };

    ghost form = { λ p. true };

    fn item_of(
        _alloc: Global,
        shown: &((PoolId, Pool), Listed<(PoolId, PoolTerms)>),
    ) -> Result<Option<(PoolId, Pool)>, NoMemory> {
        Ok(pool_of(&shown.0, shown.1.as_slice()))
    }
}
