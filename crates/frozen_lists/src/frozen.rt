//! All that is frozen, except the account entries.
ghost use Rattle.std.specs.Prelude.{◌≡◌, ◌+◌, ◌^◌, ◌<◌, true, IfOk};
ghost use Rattle.coin_frac.specs.Totals.{total_of};
ghost use Rattle.frozen_lists.specs.Pools.{snapshot_of};
ghost use Rattle.gov_ids.specs.Orders.{credential_cmp, pool_cmp};
ghost use Rattle.gov_model.specs.Proposals.{deposits_of};
ghost use Rattle.gov_model.specs.Snapshot.{Snapshot};
ghost use Rattle.snapshots.specs.Frozen.{frozen_copy_of};
ghost use Rattle.text_forms.specs.Ids.{is_map};

use crate::deposits::deposits_by_pool;
use crate::pools::frozen_pools;
use book_records::Entry;
use coin_frac::NoMemory;
use gov_actions::{EnactState, HotState, Proposal};
use gov_ids::{Account, Credential, PoolId};
use listed::Listed;
use snapshots::{Frozen, FrozenPool, HotList};
use std::alloc::Global;

/// What a `Frozen` keeps as it is.
#[derive(Drop)]
pub struct Parts {
    /// The epoch that began.
    pub epoch: u64,
    /// Parameters, version, committee, constitution, last ids, treasury.
    pub start: EnactState,
    /// The DReps in order of credentials, each with its expiry.
    pub dreps: Vec<(Credential, u64)>,
    /// The hot keys and resignations, in order of cold keys.
    pub hot: Vec<(Credential, HotState)>,
    /// The proposals with their votes, in order of submission.
    pub proposals: Vec<Proposal>,
}

/// What was frozen, made of lists: the account entries by credential; mark and the reward accounts
/// of its registered pools by id; stakes and deposits are in lovelace. `NoMemory` may come at any
/// time.
pub fn frozen_of(
    alloc: Global,
    parts: Parts,
    entries: &[(Credential, Entry)],
    mark: &[(PoolId, u64)],
    accounts: &[(PoolId, Account)],
) -> Result<Frozen, NoMemory>
    requires entries { is_map credential_cmp entries.now ≡ true }
    requires mark { is_map pool_cmp mark.now ≡ true }
    requires accounts { is_map pool_cmp accounts.now ≡ true }
    requires room { total_of mark.now + deposits_of parts.proposals.items < 2 ^ 64 }
    ensures { IfOk result (λ frozen. frozen ≡ frozen_copy_of (snapshot_of parts entries.now mark.now accounts.now)) }
{
    let pools = pools_of(alloc, entries, mark, accounts, parts.proposals.as_slice())?;
    Ok(with_pools(parts, pools))
}

/// The pools of mark as they were frozen, in the order of mark.
fn pools_of(
    alloc: Global,
    entries: &[(Credential, Entry)],
    mark: &[(PoolId, u64)],
    accounts: &[(PoolId, Account)],
    proposals: &[Proposal],
) -> Result<Listed<FrozenPool>, NoMemory>
    requires entries { is_map credential_cmp entries.now ≡ true }
    requires mark { is_map pool_cmp mark.now ≡ true }
    requires accounts { is_map pool_cmp accounts.now ≡ true }
    requires room { total_of mark.now + deposits_of proposals.now < 2 ^ 64 }
    ensures { IfOk result (λ pools. (s : Snapshot) → s.entries ≡ entries.now → s.mark ≡ mark.now →
        s.pool_accounts ≡ accounts.now → s.proposals ≡ proposals.now → pools ≡ (frozen_copy_of s).pools) }
{
    let deposits = deposits_by_pool(alloc, entries, proposals)?;
    frozen_pools(alloc, entries, mark, accounts, &deposits)
}

/// The parts with these pools.
fn with_pools(parts: Parts, pools: Listed<FrozenPool>) -> Frozen
    ensures { result ≡ record {
      epoch = parts.epoch;
      start = parts.start;
      dreps = parts.dreps.items;
      pools = pools;
      hot = parts.hot.items;
      proposals = parts.proposals.items;
    } }
{
    let Parts {
        epoch,
        start,
        dreps,
        hot,
        proposals,
    } = parts;
    Frozen {
        epoch,
        start,
        dreps: Listed::from_vec(dreps),
        pools,
        hot: HotList::from_vec(hot),
        proposals: Listed::from_vec(proposals),
    }
}
