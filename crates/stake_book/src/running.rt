ghost use Rattle.std.specs.Prelude.{◌≡◌, ◌≤◌, ◌⊎◌, [], IfOk, OnOk, OnErr};
ghost use Rattle.stake_book.specs.Changes.{entry_after, or_nothing, taken_by, unless_nothing};
ghost use Rattle.stake_book.specs.Ended.{have_any};
ghost use Rattle.stake_book.specs.Summed.{CanBecome, HasBecome};
ghost use Rattle.stake_book.specs.Sums.{balance_of, stake_in};

use crate::amounts::{lower, raise};
use crate::changes::{EntryChange, entry_after, or_nothing, unless_nothing};
use crate::counted::{Counts, pool};
use crate::leaving::Leaving;
use accounts::Follower;
use book_records::Entry;
use coin_frac::NoMemory;
use gov_ids::PoolId;
use std::alloc::Global;
use std::collections::BTreeMap;
use std::marker::Model;

/// The sum of the balances, the stake of each pool, and the counts of delegators.
#[derive(Drop)]
pub struct Sums {
    balances: u64,
    pools: BTreeMap<PoolId, u64>,
    counts: Counts,
}

impl Model for Sums {
    ghost use Rattle.stake_book.specs.Summed.{Summed};

    ghost Value = { Summed };

    ghost view = { λ a. record { balances = a.balances; pools = a.pools.entries; counts = a.counts } };
}

// The balance of an entry, in lovelace; 0 where it is not registered.
fn balance(e: &Entry) -> u64
    ensures { result ≡ balance_of e.now }
{
    e.registered.map_or(0, |r| r.rewards)
}

// What stays in a pool's stake when an entry is replaced; 0 where the pool changes.
fn left_there(from: Option<PoolId>, lost: u64, to: Option<PoolId>, gained: u64) -> u64
    ensures of_lost { result ≤ lost }
    ensures of_gained { result ≤ gained }
    ensures pool { (result ≡ 0) ⊎ (from ≡ to) }
{
    if from == to { lost.min(gained) } else { 0 }
}

impl Sums {
    /// The sums over no entries.
    pub fn new(alloc: Global) -> Sums
        ensures { result ≡ record { balances = 0; pools = []; counts = record { pools = []; dreps = [] } } }
    {
        Sums {
            balances: 0,
            pools: BTreeMap::new(alloc),
            counts: Counts::new(alloc),
        }
    }

    /// The sum of the balances, in lovelace.
    pub fn balances(&self) -> u64
        ensures { result ≡ self.now.balances }
    {
        self.balances
    }

    /// The stake of a pool, in lovelace.
    pub fn pool_stake(&self, p: &PoolId) -> u64
        ensures { result ≡ stake_in self.now.pools p.now }
    {
        self.pools.get(p).copied().unwrap_or(0)
    }

    /// Whether an account delegates to what leaves.
    pub fn have_any(&self, leaving: &Leaving) -> bool
        ensures { result ≡ have_any leaving.now self.now.counts }
    {
        self.counts.have_any(leaving)
    }

    // Takes what an entry adds to the sums, and adds what the other adds.
    // `NoMemory` leaves each sum as it was.
    fn change(&mut self, before: &Entry, after: &Entry) -> Result<(), NoMemory>
        requires { CanBecome before.now after.now self.old }
        ensures ok { OnOk result (HasBecome before.now after.now self.old self.new) }
        ensures err { OnErr result (HasBecome before.now before.now self.old self.new) }
    {
        let ended = balance(before);
        let begun = balance(after);
        let lost = before.stake + ended;
        let gained = after.stake + begun;
        let from = pool(before);
        let to = pool(after);
        let left = left_there(from, lost, to, gained);
        let more = gained - left;
        let less = lost - left;
        raise(&mut self.pools, to, more)?;
        if let Err(error) = self.counts.change(before, after) {
            lower(&mut self.pools, to, more);
            return Err(error);
        }
        lower(&mut self.pools, from, less);
        self.balances = self.balances - ended + begun;
        Ok(())
    }
}

impl Follower<Entry, EntryChange<'_>> for Sums {
    ghost use Rattle.std.specs.Prelude.{◌≤◌};
    ghost use Rattle.stake_book.specs.Changes.{entry_after, or_nothing, taken_by, unless_nothing};
    ghost use Rattle.stake_book.specs.Summed.{CanBecome, HasBecome};
    ghost use Rattle.stake_book.specs.Unchanged.{becomes_itself};

    ghost can_follow = { λ s by o.
        CanBecome (or_nothing o) (entry_after by (or_nothing o)) s × (taken_by by ≤ (or_nothing o).stake) };

    ghost value_after = { λ by o. unless_nothing (entry_after by (or_nothing o)) };

    ghost has_followed = { λ s o p t. HasBecome (or_nothing o) (or_nothing p) s t };

    ghost follows_nothing = { λ s o. becomes_itself (or_nothing o) s };

    fn follow(&mut self, by: &EntryChange, before: Option<Entry>) -> Result<Option<Entry>, NoMemory>
        requires { CanBecome (or_nothing before) (entry_after by.now (or_nothing before)) self.old
            × (taken_by by.now ≤ (or_nothing before).stake) }
        ensures value { IfOk result (λ after. after ≡ unless_nothing (entry_after by.now (or_nothing before))) }
        ensures ok { OnOk result (HasBecome (or_nothing before)
            (or_nothing (unless_nothing (entry_after by.now (or_nothing before)))) self.old self.new) }
        ensures err { OnErr result (HasBecome (or_nothing before) (or_nothing before) self.old self.new) }
    {
        let before = or_nothing(before);
        let after = entry_after(by, before);
        self.change(&before, &after)?;
        Ok(unless_nothing(after))
    }
}
