//! The lines of what boundaries keep and of what the next one applies.
ghost use Rattle.std.specs.Prelude.{◌++◌, [], ◌∷◌, codes, map, option_map};
ghost use Rattle.state_lines.specs.SnapshotNames.{snapshot_text};
ghost use Rattle.report.specs.Taking.{HasPut};
ghost use Rattle.text_model.specs.StateLines.{noted_fees_words, pending_lines, pending_reward_words, pending_words, snapshot_words};

use crate::items::{ItemLines, put_items};
use byte_lines::SinkFault;
use gov_ids::{Credential, PoolId};
use listed::Listed;
use report::{LineTaker, put_one};
use snapshots::Snapshots;
use state_lines::{SnapshotName, StateLine};
use tx_records::Rewards;

/// The stakes of the pools in a snapshot.
#[derive(Drop)]
struct Stakes {
    name: SnapshotName,
}

impl ItemLines for Stakes {
    ghost use Rattle.std.specs.Prelude.{[], ◌∷◌};
    ghost use Rattle.state_lines.specs.SnapshotNames.{snapshot_text};
    ghost use Rattle.text_model.specs.StateLines.{snapshot_words};

    type Item = (PoolId, u64);

    ghost lines = { λ p s. snapshot_words (snapshot_text p.name) s ∷ [] };

    fn put_item<T: LineTaker>(
        &self,
        to: &mut T,
        text: &mut Vec<u8>,
        line: u64,
        item: &(PoolId, u64),
    ) -> Result<(), SinkFault> {
        put_one(to, text, line, &StateLine::Snapshot(self.name, item))
    }
}

/// The rewards of an update.
#[derive(Drop)]
struct PendingRewards;

impl ItemLines for PendingRewards {
    ghost use Rattle.std.specs.Prelude.{[], ◌∷◌};
    ghost use Rattle.text_model.specs.StateLines.{pending_reward_words};

    type Item = (Credential, u64);

    ghost lines = { λ _ r. pending_reward_words r ∷ [] };

    fn put_item<T: LineTaker>(
        &self,
        to: &mut T,
        text: &mut Vec<u8>,
        line: u64,
        item: &(Credential, u64),
    ) -> Result<(), SinkFault> {
        put_one(to, text, line, &StateLine::PendingReward(item))
    }
}

/// Hands over the lines of a snapshot.
fn put_snapshot<T: LineTaker>(
    to: &mut T,
    text: &mut Vec<u8>,
    line: u64,
    name: SnapshotName,
    stakes: &Listed<(PoolId, u64)>,
) -> Result<(), SinkFault>
    ensures { HasPut T.with_line T.IsPart line (T.taken to.old) (map (snapshot_words (snapshot_text name)) stakes.now)
        (T.taken to.new) (T.faults to.old) (T.faults to.new) result }
{
    put_items(to, text, line, &Stakes { name }, stakes.as_slice())
}

/// Hands over the lines of the two younger snapshots.
fn put_younger<T: LineTaker>(
    to: &mut T,
    text: &mut Vec<u8>,
    line: u64,
    snapshots: &Snapshots,
) -> Result<(), SinkFault>
    ensures { HasPut T.with_line T.IsPart line (T.taken to.old)
        (map (snapshot_words (codes "mark")) snapshots.now.mark
        ++ map (snapshot_words (codes "set")) snapshots.now.set)
        (T.taken to.new) (T.faults to.old) (T.faults to.new) result }
{
    put_snapshot(to, text, line, SnapshotName::Mark, &snapshots.mark)?;
    put_snapshot(to, text, line, SnapshotName::Set, &snapshots.set)
}

/// Hands over the lines of the snapshots and of the fees.
pub(crate) fn put_snapshots<T: LineTaker>(
    to: &mut T,
    text: &mut Vec<u8>,
    line: u64,
    snapshots: &Snapshots,
) -> Result<(), SinkFault>
    ensures { HasPut T.with_line T.IsPart line (T.taken to.old)
        (map (snapshot_words (codes "mark")) snapshots.now.mark
        ++ map (snapshot_words (codes "set")) snapshots.now.set
        ++ map (snapshot_words (codes "go")) snapshots.now.go
        ++ noted_fees_words snapshots.now.fees ∷ [])
        (T.taken to.new) (T.faults to.old) (T.faults to.new) result }
{
    put_younger(to, text, line, snapshots)?;
    put_snapshot(to, text, line, SnapshotName::Go, &snapshots.go)?;
    put_one(to, text, line, &StateLine::NotedFees(snapshots.fees))
}

/// Hands over the lines of an update and its rewards.
fn put_update<T: LineTaker>(
    to: &mut T,
    text: &mut Vec<u8>,
    line: u64,
    update: &Rewards,
) -> Result<(), SinkFault>
    ensures { HasPut T.with_line T.IsPart line (T.taken to.old) (pending_words update.now ∷ map pending_reward_words update.now.rewards)
        (T.taken to.new) (T.faults to.old) (T.faults to.new) result }
{
    put_one(to, text, line, &StateLine::Pending(update))?;
    put_items(to, text, line, &PendingRewards, update.rewards.as_slice())
}

/// Hands over the lines of the pending update, or that there is none.
pub(crate) fn put_pending<T: LineTaker>(
    to: &mut T,
    text: &mut Vec<u8>,
    line: u64,
    pending: Option<&Rewards>,
) -> Result<(), SinkFault>
    ensures { HasPut T.with_line T.IsPart line (T.taken to.old) (pending_lines (option_map (λ u. u.now) pending.entry))
        (T.taken to.new) (T.faults to.old) (T.faults to.new) result }
{
    match pending {
        None => put_one(to, text, line, &StateLine::NonePending),
        Some(update) => put_update(to, text, line, update),
    }
}
