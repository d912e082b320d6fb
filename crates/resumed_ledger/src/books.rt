//! The books, of lists.
ghost use Rattle.std.specs.Prelude.{◌≡◌, ◌+◌, ◌≤◌, ◌^◌, ◌<◌, length, IfOk};
ghost use Rattle.book_records.specs.Outputs.{lovelace_in};
ghost use Rattle.coin_frac.specs.declared.TheConstants.{SUPPLY_LIMIT};
ghost use Rattle.drep_pulser.specs.Facts.{held_by};
ghost use Rattle.drep_pulser.specs.Pulsers.{IsPulserOf, done_by};
ghost use Rattle.gov_ids.specs.Orders.{credential_cmp, outref_cmp, pool_cmp, txid_cmp};
ghost use Rattle.gov_model.specs.Proposals.{deposits_of};
ghost use Rattle.gov_model.specs.Snapshot.{Snapshot};
ghost use Rattle.maps.specs.Maps.{IsMap, IsSet};
ghost use Rattle.resumed_books.specs.Counts.{HasLists};
ghost use Rattle.resumed_ledger.specs.Parts.{AreSoundBooks};
ghost use Rattle.stake_book.specs.Stakes.{accounts_of, balances_in};
ghost use Rattle.view_map.specs.View.{frozen_of};

use book_records::{DrepState, Entry, Output, Pool, Registered};
use cert_pool::PoolBook;
use coin_frac::NoMemory;
use committee_book::HotBook;
use drep_book::DrepBook;
use drep_pulser::Pulser;
use gov_actions::HotState;
use gov_ids::{Credential, OutRef, PoolId, TxId};
use hash_seed::HashSeed;
use listed::Listed;
use proposal_store::ProposalStore;
use resumed_books::{counted_of, dreps_of, hot_of, pools_of, proposals_of, stake_of};
use snapshots::Frozen;
use stake_book::StakeBook;
use state_lists::BookLists;
use std::alloc::Global;

/// The book of outputs and accounts, with the count of its frozen entries.
pub(crate) type Held = (StakeBook, Pulser);

/// The books of pools, DReps and hot keys.
pub(crate) type Keyed = (PoolBook, DrepBook, HotBook);

/// How many frozen entries are counted, and for how many workers.
#[derive(Clone, Copy)]
pub(crate) struct Progress {
    pub(crate) counted: u64,
    pub(crate) workers: u32,
}

/// The books of lists with so many dormant epochs, with what was frozen and counted of them.
pub(crate) fn books_of(
    alloc: Global,
    seed: HashSeed,
    lists: BookLists,
    dormant: u64,
    entries: Listed<(Credential, Entry)>,
    frozen: &Frozen,
    progress: Progress,
) -> Result<(Held, Keyed, ProposalStore), NoMemory>
    requires some { 1 ≤ progress.workers }
    requires few { progress.workers ≤ 64 }
    requires sound { AreSoundBooks lists }
    requires entries { IsMap credential_cmp entries }
    requires frozen { held_by entries + deposits_of frozen.now.proposals < 2 ^ 64 }
    requires counted { progress.counted ≤ length entries }
    ensures outputs { IfOk result (λ b. b.0.0.outputs ≡ record { outputs = lists.outputs; used = lists.used }) }
    ensures accounts { IfOk result (λ b. accounts_of b.0.0 ≡ lists.accounts) }
    ensures entries { IfOk result (λ b. frozen_of credential_cmp b.0.0.accounts ≡ entries) }
    ensures done { IfOk result (λ b. done_by b.0.1 ≡ progress.counted) }
    ensures counts { (f : Snapshot) → HasLists f entries frozen.now.dreps frozen.now.proposals →
        IfOk result (λ b. IsPulserOf f b.0.1) }
    ensures pools { IfOk result (λ b. b.1.0 ≡ lists.pools) }
    ensures dreps { IfOk result (λ b. b.1.1 ≡ record { dreps = lists.dreps; dormant = dormant }) }
    ensures hot { IfOk result (λ b. b.1.2 ≡ lists.hot) }
    ensures proposals { IfOk result (λ b. b.2 ≡ lists.proposals) }
{
    let (outputs, used, accounts, pools, dreps, hot, proposals) = lists.into_parts();
    let stake = stake_of(alloc, seed, accounts, outputs, used, entries)?;
    let held = held_of(alloc, stake, frozen, progress)?;
    let keyed = keyed_of(alloc, pools, dreps, dormant, hot)?;
    let proposals = proposals_of(alloc, seed, proposals)?;
    Ok((held, keyed, proposals))
}

/// The book with the count of its frozen entries.
fn held_of(
    alloc: Global,
    stake: StakeBook,
    frozen: &Frozen,
    progress: Progress,
) -> Result<Held, NoMemory>
    requires some { 1 ≤ progress.workers }
    requires few { progress.workers ≤ 64 }
    requires room { held_by (frozen_of credential_cmp stake.accounts) + deposits_of frozen.now.proposals < 2 ^ 64 }
    requires counted { progress.counted ≤ length (frozen_of credential_cmp stake.accounts) }
    ensures stake { IfOk result (λ held. held.0 ≡ stake) }
    ensures done { IfOk result (λ held. done_by held.1 ≡ progress.counted) }
    ensures counts { (f : Snapshot) → HasLists f (frozen_of credential_cmp stake.accounts) frozen.now.dreps frozen.now.proposals →
        IfOk result (λ held. IsPulserOf f held.1) }
{
    let Progress { counted, workers } = progress;
    let dreps = frozen.dreps.as_slice();
    let proposals = frozen.proposals.as_slice();
    let pulser = counted_of(alloc, stake.book(), dreps, proposals, counted, workers)?;
    Ok((stake, pulser))
}

/// The books of pools, DReps and hot keys.
fn keyed_of(
    alloc: Global,
    pools: Listed<(PoolId, Pool)>,
    dreps: Listed<(Credential, DrepState)>,
    dormant: u64,
    hot: Listed<(Credential, HotState)>,
) -> Result<Keyed, NoMemory>
    requires pools { IsMap pool_cmp pools }
    requires dreps { IsMap credential_cmp dreps }
    requires hot { IsMap credential_cmp hot }
    ensures pools { IfOk result (λ keyed. keyed.0 ≡ pools) }
    ensures dreps { IfOk result (λ keyed. keyed.1 ≡ record { dreps = dreps; dormant = dormant }) }
    ensures hot { IfOk result (λ keyed. keyed.2 ≡ hot) }
{
    let pools = pools_of(alloc, pools)?;
    let dreps = dreps_of(alloc, dreps, dormant)?;
    let hot = hot_of(alloc, hot)?;
    Ok((pools, dreps, hot))
}
