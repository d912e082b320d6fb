ghost use Rattle.std.specs.Prelude.{◌≡◌, ◌+◌, ◌-◌, ◌^◌, ◌<◌, ◌≤◌, All, IfOk, length, List, Some, min, option_map, ℕ};
ghost use Rattle.book_records.specs.declared.Entry.{Entry};
ghost use Rattle.gov_ids.specs.declared.Credential.{Credential};
ghost use Rattle.gov_ids.specs.declared.Drep.{Drep};
ghost use Rattle.gov_ids.specs.Orders.{credential_cmp};
ghost use Rattle.snapshots.specs.of_gov_model.Snapshot.{Snapshot};
ghost use Rattle.view_map.specs.View.{frozen_of};
ghost use Rattle.drep_pulser.specs.Count.{Count, sum_for};
ghost use Rattle.drep_pulser.specs.Facts.{AreSums, ForSnapshotOf, IsCountOf, IsCountIn, IsCountedOf, weight_by};
ghost use Rattle.drep_pulser.specs.Parts.{by_drep, entries_between, entries_left, IsSharedIn, no_part, sum_with};
ghost use Rattle.drep_pulser.specs.Visits.{IsNextIn, drep_of, visited, with_more};

use crate::bounds::{is_beyond, later};
use crate::counted::Counted;
use crate::part::Part;
use crate::sums::Sums;
use accounts::{AccountBook, Entry};
use coin_frac::{NoMemory, Steps, TotalMap};
use gov_ids::{Credential, Drep};
use std::alloc::Global;
use std::marker::Model;
use std::sync::ledger::Ledger;

/// A count that has given out its workers' sums; they share the frozen entries left.
#[derive(Debug, Drop)]
pub struct Walk {
    cursor: Option<Credential>,
    done: u64,
    total: u64,
    workers: u32,
    sums: Sums,
    deposits: TotalMap<Credential>,
}

impl Model for Walk {
    ghost use Rattle.std.specs.Prelude.{◌^◌, ◌<◌};
    ghost use Rattle.drep_pulser.specs.Count.{Count};

    ghost Value = { Count };

    ghost view = { λ a. record {
      cursor = a.cursor;
      done = a.done;
      total = a.total;
      workers = a.workers;
      sums = a.sums;
      deposits = a.deposits;
    } };

    ghost invariant = { λ a. a.total < 2 ^ 64 };
}

impl Walk {
    // A count with no entry visited.
    pub(crate) fn new(total: u64, workers: u32, sums: Sums, deposits: TotalMap<Credential>) -> Walk
        ensures { result ≡ record {
          cursor = None;
          done = 0;
          total = total;
          workers = workers;
          sums = sums;
          deposits = deposits;
        } }
    {
        Walk {
            cursor: None,
            done: 0,
            total,
            workers,
            sums,
            deposits,
        }
    }

    // A copy.
    pub(crate) fn copied(&self, alloc: Global) -> Result<Walk, NoMemory>
        ensures { IfOk result (λ copy. copy ≡ self.now) }
    {
        Ok(Walk {
            cursor: self.cursor,
            done: self.done,
            total: self.total,
            workers: self.workers,
            sums: self.sums.copied(alloc)?,
            deposits: self.deposits.copied(alloc)?,
        })
    }

    // An empty part for each worker.
    pub(crate) fn parts(&self, alloc: Global) -> Result<Vec<Part>, NoMemory>
        ensures each { IfOk result (λ parts. length parts.items ≡ self.now.workers) }
        ensures empty { IfOk result (λ parts. All (λ part. part ≡ no_part self.now.sums) parts.items) }
    {
        let mut parts = Vec::new(alloc);
        for _worker in 0..self.workers {
            parts.push(Part::of(alloc, &self.sums)?)?;
        }
        Ok(parts)
    }

    /// Adds to a part each DRep's stake among the frozen accounts after the count's cursor and
    /// after `after`, but not after `until`; none is no bound. The book's frozen entries are those
    /// of `begin`. It takes no memory.
    pub fn add(
        &self,
        book: &AccountBook,
        after: Option<&Credential>,
        until: Option<&Credential>,
        part: &mut Part,
    )
        requires counts { IsCountIn (frozen_of credential_cmp book.now) self.now }
        requires empty { part.old ≡ no_part self.now.sums }
        ensures length { length part.new ≡ length self.now.sums }
        ensures sums { AreSums
            (entries_between (option_map (λ c. c.now) after.entry) (option_map (λ c. c.now) until.entry)
            (entries_left self.now (frozen_of credential_cmp book.now)))
            self.now.deposits
            (by_drep self.now.sums part.new) }
    {
        let from = later(self.cursor, after);
        let mut entries = book.frozen_past(from.as_ref());
        while let Some((c, entry)) = entries.next_entry() {
            if is_beyond(until, c) {
                return;
            }
            self.weigh(c, entry, part);
        }
    }

    /// The ended count, from all parts together. It takes no memory.
    pub fn close(mut self, parts: Vec<Part>) -> Counted
        requires each { All (λ part. length part ≡ length self.sums) parts.items }
        requires shared { (es : List (Credential × Entry)) × IsSharedIn es self parts.items }
        ensures counts { (f : Snapshot) → IsCountOf f self → IsSharedIn f.entries self parts.items →
            IsCountedOf f result }
        ensures sums { (d : Drep) → sum_for result.sums d ≡ sum_with parts.items self.sums d }
        ensures total { result.total ≡ self.total }
    {
        for part in &parts {
            self.sums.gather(part.as_slice());
        }
        self.ended()
    }

    // How many entries are visited.
    pub(crate) fn done(&self) -> u64
        ensures { result ≡ self.now.done }
    {
        self.done
    }

    // How many frozen entries there are.
    pub(crate) fn total(&self) -> u64
        ensures { result ≡ self.now.total }
    {
        self.total
    }

    // The sum of a DRep over the visited entries.
    pub(crate) fn partial(&self, d: &Drep) -> u64
        ensures { result ≡ sum_for self.now.sums d.now }
    {
        self.sums.get(d)
    }

    // Visits at most `most` of the next entries.
    pub(crate) fn advance<L: Ledger>(&mut self, book: &AccountBook, most: u64, steps: &mut Steps<L>)
        requires counts { IsCountIn (frozen_of credential_cmp book.now) self.old }
        requires fits { steps.old + min most (self.old.total - self.old.done) < 2 ^ 64 }
        ensures counts { ForSnapshotOf (frozen_of credential_cmp book.now) self.old (λ f. IsCountOf f self.new) }
        ensures counts_in { IsCountIn (frozen_of credential_cmp book.now) self.new }
        ensures done { self.new.done ≡ min (self.old.done + most) self.old.total }
        ensures total { self.new.total ≡ self.old.total }
        ensures workers { self.new.workers ≡ self.old.workers }
        ensures parts { no_part self.new.sums ≡ no_part self.old.sums }
        ensures steps { steps.new ≡ steps.old + min most (self.old.total - self.old.done) }
    {
        let mut entries = book.frozen_past(self.cursor.as_ref());
        for _visit in 0..most {
            let Some((c, entry)) = entries.next_entry() else {
                return;
            };
            self.visit(c, entry);
            steps.tick();
        }
    }

    // Visits an entry.
    fn visit(&mut self, c: &Credential, entry: &Entry)
        requires { IsNextIn (c.now, entry.now) self.old }
        ensures { self.new ≡ visited (c.now, entry.now) self.old }
    {
        self.cursor = Some(*c);
        self.done += 1;
        if let Some((drep, weight)) = weighed(&self.deposits, c, entry) {
            self.sums.add(drep, weight);
        }
    }

    // Adds the weight of an entry to a part.
    fn weigh(&self, c: &Credential, entry: &Entry, part: &mut Part)
        requires length { length part.old ≡ length self.now.sums }
        requires weight { weight_by self.now.deposits (c.now, entry.now) < 2 ^ 64 }
        requires fits { (d : Drep) → drep_of entry.now ≡ Some d →
            sum_for (by_drep self.now.sums part.old) d + weight_by self.now.deposits (c.now, entry.now) < 2 ^ 64 }
        ensures length { length part.new ≡ length part.old }
        ensures sums { by_drep self.now.sums part.new ≡
            with_more (drep_of entry.now) (weight_by self.now.deposits (c.now, entry.now)) (by_drep self.now.sums part.old) }
    {
        if let Some((drep, weight)) = weighed(&self.deposits, c, entry) {
            part.add(&self.sums, drep, weight);
        }
    }

    pub(crate) fn ended(self) -> Counted
        ensures { result ≡ record { total = self.total; sums = self.sums } }
    {
        Counted {
            total: self.total,
            sums: self.sums,
        }
    }
}

// The DRep to which an entry delegates, and its weight with the deposits that return to it.
fn weighed<'a>(
    deposits: &TotalMap<Credential>,
    c: &Credential,
    entry: &'a Entry,
) -> Option<(&'a Drep, u64)>
    requires { weight_by deposits.now (c.now, entry.now) < 2 ^ 64 }
    ensures { option_map {U = Drep × ℕ} (λ w. (w.0.now, w.1)) result
        ≡ option_map (λ d. (d, weight_by deposits.now (c.now, entry.now))) (drep_of entry.now) }
{
    let registered = entry.registered.as_ref()?;
    let drep = registered.drep.as_ref()?;
    let weight = entry.stake + registered.rewards + deposits.get(c);
    Some((drep, weight))
}
