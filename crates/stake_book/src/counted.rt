ghost use Rattle.std.specs.Prelude.{◌≡◌, [], OnOk, OnErr};
ghost use Rattle.stake_book.specs.Delegators.{AreRecounted, HasCounted, drep_of};
ghost use Rattle.stake_book.specs.Ended.{have_any};
ghost use Rattle.stake_book.specs.Sums.{pool_of};

use crate::delegators::{Delegators, moved};
use crate::leaving::Leaving;
use book_records::Entry;
use coin_frac::NoMemory;
use gov_ids::{Credential, Drep, PoolId};
use std::alloc::Global;
use std::marker::Model;

/// How many accounts delegate to each pool and to each DRep.
#[derive(Drop)]
pub struct Counts {
    pools: Delegators<PoolId>,
    dreps: Delegators<Credential>,
}

impl Model for Counts {
    ghost use Rattle.stake_book.specs.Delegators.{Counted};

    ghost Value = { Counted };

    ghost view = { λ a. record { pools = a.pools; dreps = a.dreps } };
}

/// The pool to which an entry delegates.
pub fn pool(e: &Entry) -> Option<PoolId>
    ensures { result ≡ pool_of e.now }
{
    e.registered?.pool
}

// The DRep to which an entry delegates.
fn drep(e: &Entry) -> Option<Credential>
    ensures { result ≡ drep_of e.now }
{
    match e.registered?.drep? {
        Drep::Registered(c) => Some(c),
        Drep::Abstain | Drep::NoConfidence => None,
    }
}

impl Counts {
    /// No delegations.
    pub fn new(alloc: Global) -> Counts
        ensures { result ≡ record { pools = []; dreps = [] } }
    {
        Counts {
            pools: Delegators::new(alloc),
            dreps: Delegators::new(alloc),
        }
    }

    /// Counts the delegations of an entry that has become another.
    /// `NoMemory` leaves each count as it was.
    pub fn change(&mut self, before: &Entry, after: &Entry) -> Result<(), NoMemory>
        requires { HasCounted before.now self.old }
        ensures ok { OnOk result (AreRecounted before.now after.now self.old self.new) }
        ensures err { OnErr result (AreRecounted before.now before.now self.old self.new) }
    {
        let (pool_left, pool_joined) = moved(pool(before), pool(after));
        let (drep_left, drep_joined) = moved(drep(before), drep(after));
        self.pools.join(pool_joined)?;
        if let Err(error) = self.dreps.join(drep_joined) {
            self.pools.leave(pool_joined);
            return Err(error);
        }
        self.pools.leave(pool_left);
        self.dreps.leave(drep_left);
        Ok(())
    }

    /// Whether an account delegates to what leaves.
    pub fn have_any(&self, leaving: &Leaving) -> bool
        ensures { result ≡ have_any leaving.now self.now }
    {
        match leaving {
            Leaving::Pools(pools) => self.pools.have_any(pools),
            Leaving::Dreps(dreps) => self.dreps.have_any(dreps),
        }
    }
}
