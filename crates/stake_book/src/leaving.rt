ghost use Rattle.std.specs.Prelude.{◌≡◌, option_and_then};
ghost use Rattle.stake_book.specs.Ended.{change_of};
ghost use Rattle.stake_book.specs.Stakes.{delegates_to_dreps};

use book_records::Registered;
use gov_ids::{Credential, Drep, PoolId};
use std::collections::BTreeSet;

/// The pools or DReps that leave: the delegations to them end.
#[derive(Debug, Drop)]
pub enum Leaving {
    /// Pools.
    Pools(BTreeSet<PoolId>),
    /// DReps, by credential.
    Dreps(BTreeSet<Credential>),
}

// Whether a registration delegates its vote to one of these DReps.
fn votes_by(r: &Registered, dreps: &BTreeSet<Credential>) -> bool
    ensures { result ≡ delegates_to_dreps dreps.now.keys r.now }
{
    match &r.drep {
        Some(Drep::Registered(c)) => dreps.contains(c),
        Some(Drep::Abstain | Drep::NoConfidence) | None => false,
    }
}

impl Leaving {
    /// The registration without its delegation to what leaves; none where it has none such.
    pub fn change(&self, registered: Option<Registered>) -> Option<Registered>
        ensures { result ≡ option_and_then (change_of self.now) registered }
    {
        let r = registered?;
        match self {
            Leaving::Pools(pools) => {
                let pool = r.pool?;
                pools
                    .contains(&pool)
                    .then_some(Registered { pool: None, ..r })
            }
            Leaving::Dreps(dreps) => {
                votes_by(&r, dreps).then_some(Registered { drep: None, ..r })
            }
        }
    }
}
