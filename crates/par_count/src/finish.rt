ghost use Rattle.std.specs.Prelude.{◌≡◌, ℕ, ◌<◌, ◌≤◌, All, List, length, slice_index_or};
ghost use Rattle.drep_pulser.specs.Facts.{ForSnapshotOf, IsCountIn, IsCountedOf};
ghost use Rattle.drep_pulser.specs.Parts.{no_part};
ghost use Rattle.gov_ids.specs.Orders.{credential_cmp};
ghost use Rattle.par_count.specs.Ranges.{IsShareOf, last_before};
ghost use Rattle.view_map.specs.View.{frozen_of};

use crate::gate::Gate;
use accounts::AccountBook;
use drep_pulser::{Counted, Counting, Part, Walk};
use gov_ids::{CredKind, Credential};
use std::thread::{Threads, for_each_mut};

/// Visits all entries left, shared by the first byte of the account's hash. It takes no memory.
/// W: the lesser of `workers` and `begin`'s. Worker w has 256·w/W to below 256·(w+1)/W, floored.
/// Each enters the gate once, first, even if idle. (The DRep pulser of cardano-ledger; shares: Own)
pub fn finish_shared<R: Threads + Sync, G: Gate + Sync>(
    rt: &R,
    counting: Counting,
    book: &AccountBook,
    workers: u32,
    gate: &G,
) -> Counted
    requires some { 1 ≤ workers }
    requires few { workers ≤ 64 }
    requires counts { IsCountIn (frozen_of credential_cmp book.now) counting }
    ensures counts { ForSnapshotOf (frozen_of credential_cmp book.now) counting (λ f. IsCountedOf f result) }
    ensures total { result.total ≡ counting.total }
{
    let (walk, mut parts) = counting.split();
    parts.truncate(workers as usize);
    add_shares(rt, &walk, book, gate, &mut parts);
    walk.close(parts)
}

// Each worker adds the accounts in its range to its own part.
fn add_shares<R: Threads + Sync, G: Gate + Sync>(
    rt: &R,
    walk: &Walk,
    book: &AccountBook,
    gate: &G,
    parts: &mut [Part],
)
    requires some { 1 ≤ length parts.old }
    requires few { length parts.old ≤ 64 }
    requires counts { IsCountIn (frozen_of credential_cmp book.now) walk.now }
    requires empty { All (λ part. part ≡ no_part walk.now.sums) parts.old }
    ensures each { length parts.new ≡ length parts.old }
    ensures shares { (worker : ℕ) (d : List ℕ) → worker < length parts.old →
        IsShareOf (frozen_of credential_cmp book.now) walk.now worker (length parts.old)
        (slice_index_or parts.new worker d) }
{
    let workers = parts.len();
    let work = |worker: usize, part: &mut Part| add_share(walk, book, gate, worker, workers, part);
    for_each_mut(rt, parts, workers, &work);
}

// A worker enters the gate, then adds the accounts in its range to its part.
fn add_share<G: Gate>(
    walk: &Walk,
    book: &AccountBook,
    gate: &G,
    worker: usize,
    workers: usize,
    part: &mut Part,
)
    requires one { worker < workers }
    requires few { workers ≤ 64 }
    requires counts { IsCountIn (frozen_of credential_cmp book.now) walk.now }
    requires empty { part.old ≡ no_part walk.now.sums }
    ensures { IsShareOf (frozen_of credential_cmp book.now) walk.now worker workers part.new }
{
    gate.enter(worker as u32);
    let after = last_before(worker, workers);
    let until = last_before(worker + 1, workers);
    walk.add(book, after.as_ref(), until.as_ref(), part);
}

// The last credential before a worker's range; none before the first and after the last range.
fn last_before(worker: usize, workers: usize) -> Option<Credential>
    requires some { 0 < workers }
    requires few { workers ≤ 64 }
    requires one { worker ≤ workers }
    ensures { result ≡ last_before worker workers }
{
    if worker == 0 || worker == workers {
        return None;
    }
    let mut hash = [255; 28];
    hash[0] = (worker * 256 / workers - 1) as u8;
    Some(Credential {
        hash,
        kind: CredKind::Script,
    })
}
