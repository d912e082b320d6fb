ghost use Rattle.std.specs.Prelude.{◌≡◌, ◌+◌, ◌-◌, ◌^◌, ◌<◌, ◌≤◌, ◌↔◌, All, IsTrue, IfOk, length, min};
ghost use Rattle.gov_ids.specs.Orders.{credential_cmp};
ghost use Rattle.view_map.specs.View.{frozen_of};
ghost use Rattle.snapshots.specs.of_gov_model.Snapshot.{Snapshot};
ghost use Rattle.snapshots.specs.of_gov_model.Stake.{drep_stake_of_first};
ghost use Rattle.drep_pulser.specs.Count.{Count, sum_for};
ghost use Rattle.coin_frac.specs.Totals.{total_of};
ghost use Rattle.drep_pulser.specs.Facts.{held_by, HasFrozen, ForSnapshotOf, IsCountOf, IsCountIn, IsCountedOf};
ghost use Rattle.drep_pulser.specs.Parts.{no_part};
ghost use Rattle.drep_pulser.specs.Pulsers.{IsPulserOf, GoesOnIn, has_ended, done_by, total_of_pulser};

use crate::Pulser;
use crate::counted::Counted;
use crate::part::Part;
use crate::sums::Sums;
use crate::walk::Walk;
use accounts::AccountBook;
use coin_frac::{NoMemory, Steps, TotalMap};
use drep_book::DrepBook;
use gov_ids::{Credential, Drep};
use std::alloc::Global;
use std::marker::Model;
use std::sync::ledger::Ledger;

/// A count of the frozen entries that goes on. The entries stay in the book.
/// It holds the sums of its workers, all 0.
/// (the DRep pulser of cardano-ledger; the representation is own)
#[derive(Debug, Drop)]
pub struct Counting {
    walk: Walk,
    parts: Vec<Part>,
}

impl Model for Counting {
    ghost use Rattle.std.specs.Prelude.{◌≡◌, ◌≤◌, All, length};
    ghost use Rattle.drep_pulser.specs.Count.{Count};
    ghost use Rattle.drep_pulser.specs.Parts.{no_part};

    ghost Value = { Count };

    ghost view = { λ a. a.walk };

    ghost invariant = { λ a. (1 ≤ a.walk.workers) × (length a.parts.items ≡ a.walk.workers)
        × All (λ part. part ≡ no_part a.walk.sums) a.parts.items };
}

/// Begins a count of the book's frozen entries, for the DReps of `dreps`; none is visited yet.
/// The deposits of proposals are by the credential to which they return.
/// It takes all memory of the count. (the DRep pulser of cardano-ledger)
pub fn begin(
    alloc: Global,
    book: &AccountBook,
    dreps: &DrepBook,
    deposits: &TotalMap<Credential>,
    workers: u32,
) -> Result<Counting, NoMemory>
    requires some { 1 ≤ workers }
    requires few { workers ≤ 64 }
    ensures none_visited { IfOk result (λ c. c.done ≡ 0) }
    ensures total { IfOk result (λ c. c.total ≡ length (frozen_of credential_cmp book.now)) }
    ensures workers { IfOk result (λ c. c.workers ≡ workers) }
    ensures counts { (f : Snapshot) → HasFrozen f book.now dreps.now deposits.now → IfOk result (IsCountOf f) }
    ensures counts_in { held_by (frozen_of credential_cmp book.now) + total_of deposits.now < 2 ^ 64
        → IfOk result (IsCountIn (frozen_of credential_cmp book.now)) }
{
    let sums = Sums::of(alloc, dreps)?;
    let deposits = deposits.copied(alloc)?;
    Counting::of(alloc, Walk::new(book.frozen_len(), workers, sums, deposits))
}

impl Counting {
    // A walk, with the sums of its workers.
    fn of(alloc: Global, walk: Walk) -> Result<Counting, NoMemory>
        requires { 1 ≤ walk.workers }
        ensures { IfOk result (λ c. c ≡ walk) }
    {
        let parts = walk.parts(alloc)?;
        Ok(Counting { walk, parts })
    }

    /// A copy.
    pub fn copied(&self, alloc: Global) -> Result<Counting, NoMemory>
        ensures { IfOk result (λ copy. copy ≡ self.now) }
    {
        Counting::of(alloc, self.walk.copied(alloc)?)
    }

    /// The count, and an empty part for each worker. It takes no memory: `begin` took it.
    pub fn split(self) -> (Walk, Vec<Part>)
        ensures walk { result.0 ≡ self }
        ensures each { length result.1.items ≡ self.workers }
        ensures some { 1 ≤ self.workers }
        ensures empty { All (λ part. part ≡ no_part self.sums) result.1.items }
    {
        (self.walk, self.parts)
    }

    /// Visits the next `n` entries, or all that are left; each visit is a step.
    /// The book's frozen entries are those of `begin`. It takes no memory.
    /// (the DRep pulser of cardano-ledger)
    pub fn pulse<L: Ledger>(mut self, book: &AccountBook, n: u32, steps: &mut Steps<L>) -> Pulser
        requires some { 1 ≤ n }
        requires counts { IsCountIn (frozen_of credential_cmp book.now) self }
        requires fits { steps.old + min n (self.total - self.done) < 2 ^ 64 }
        ensures counts { ForSnapshotOf (frozen_of credential_cmp book.now) self (λ f. IsPulserOf f result) }
        ensures goes_on { GoesOnIn (frozen_of credential_cmp book.now) result }
        ensures done { done_by result ≡ min (self.done + n) self.total }
        ensures total { total_of_pulser result ≡ self.total }
        ensures ends { IsTrue (has_ended result) ↔ (self.total ≤ self.done + n) }
        ensures steps { steps.new ≡ steps.old + min n (self.total - self.done) }
    {
        self.walk.advance(book, u64::from(n), steps);
        if self.done() == self.total() {
            Pulser::Counted(self.walk.ended())
        } else {
            Pulser::Counting(self)
        }
    }

    /// Visits all entries that are left; each visit is a step.
    /// The book's frozen entries are those of `begin`. It takes no memory.
    /// (the DRep pulser of cardano-ledger)
    pub fn finish<L: Ledger>(mut self, book: &AccountBook, steps: &mut Steps<L>) -> Counted
        requires counts { IsCountIn (frozen_of credential_cmp book.now) self }
        requires fits { steps.old + (self.total - self.done) < 2 ^ 64 }
        ensures counts { ForSnapshotOf (frozen_of credential_cmp book.now) self (λ f. IsCountedOf f result) }
        ensures total { result.total ≡ self.total }
        ensures steps { steps.new ≡ steps.old + (self.total - self.done) }
    {
        let left = self.total() - self.done();
        self.walk.advance(book, left, steps);
        self.walk.ended()
    }

    /// How many entries are visited.
    pub fn done(&self) -> u64
        ensures { result ≡ self.now.done }
    {
        self.walk.done()
    }

    /// How many frozen entries there are.
    pub fn total(&self) -> u64
        ensures { result ≡ self.now.total }
    {
        self.walk.total()
    }

    /// The stake of a DRep over the visited entries, in lovelace.
    /// (the DRep pulser of cardano-ledger)
    pub fn partial(&self, d: &Drep) -> u64
        ensures sum { result ≡ sum_for self.now.sums d.now }
        ensures stake { (f : Snapshot) → IsCountOf f self.now → result ≡ drep_stake_of_first self.now.done f d.now }
    {
        self.walk.partial(d)
    }
}
