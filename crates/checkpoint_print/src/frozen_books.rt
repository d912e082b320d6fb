//! What is frozen of accounts, DReps, cold keys and pools.
ghost use Rattle.std.specs.Prelude.{map};
ghost use Rattle.checkpoint_print.specs.LineWords.{pool_words};
ghost use Rattle.gov_ids.specs.Orders.{credential_cmp};
ghost use Rattle.report.specs.Taking.{HasPut};
ghost use Rattle.text_forms.specs.Snapshots.{expiry_words};
ghost use Rattle.text_model.specs.StateLines.{account_words, hot_words};
ghost use Rattle.view_map.specs.View.{frozen_of};

use crate::line::CheckpointLine;
use crate::source::{LineSource, put_left};
use accounts::{AccountBook, FrozenIter};
use book_records::Entry;
use byte_lines::SinkFault;
use gov_actions::HotState;
use gov_ids::Credential;
use report::LineTaker;
use snapshots::FrozenPool;
use state_lines::StateLine;

/// The frozen entries that are left.
#[derive(Drop)]
struct FrozenEntries<'a> {
    rest: FrozenIter<'a, Credential, Entry>,
}

impl<'a> LineSource for FrozenEntries<'a> {
    ghost use Rattle.std.specs.Prelude.{map};
    ghost use Rattle.text_model.specs.StateLines.{account_words};

    type Line = StateLine<'a>;

    ghost left = { λ s. map account_words s.rest };

    fn next_line(&mut self) -> Option<StateLine<'a>> {
        let (credential, entry) = self.rest.next_entry()?;
        Some(StateLine::Account(credential, entry))
    }
}

/// The frozen DReps that are left, each with its expiry.
#[derive(Drop)]
struct FrozenDreps<'a> {
    rest: &'a [(Credential, u64)],
}

impl<'a> LineSource for FrozenDreps<'a> {
    ghost use Rattle.std.specs.Prelude.{map};
    ghost use Rattle.text_forms.specs.Snapshots.{expiry_words};

    type Line = CheckpointLine<'a>;

    ghost left = { λ s. map expiry_words s.rest.now };

    fn next_line(&mut self) -> Option<CheckpointLine<'a>> {
        let (drep, others) = self.rest.split_first()?;
        self.rest = others;
        Some(CheckpointLine::Drep(drep))
    }
}

/// The frozen entries of cold keys that are left.
#[derive(Drop)]
struct FrozenKeys<'a> {
    rest: &'a [(Credential, HotState)],
}

impl<'a> LineSource for FrozenKeys<'a> {
    ghost use Rattle.std.specs.Prelude.{map};
    ghost use Rattle.text_model.specs.StateLines.{hot_words};

    type Line = StateLine<'a>;

    ghost left = { λ s. map hot_words s.rest.now };

    fn next_line(&mut self) -> Option<StateLine<'a>> {
        let (key, others) = self.rest.split_first()?;
        self.rest = others;
        Some(StateLine::Hot(&key.0, &key.1))
    }
}

/// The pools of mark that are left.
#[derive(Drop)]
struct FrozenPools<'a> {
    rest: &'a [FrozenPool],
}

impl<'a> LineSource for FrozenPools<'a> {
    ghost use Rattle.std.specs.Prelude.{map};
    ghost use Rattle.checkpoint_print.specs.LineWords.{pool_words};

    type Line = CheckpointLine<'a>;

    ghost left = { λ s. map pool_words s.rest.now };

    fn next_line(&mut self) -> Option<CheckpointLine<'a>> {
        let (pool, others) = self.rest.split_first()?;
        self.rest = others;
        Some(CheckpointLine::Pool(pool))
    }
}

/// Hands over the frozen entries, in order of credential.
#[tactic(auto, using(crate::proofs::Taken::all_entries))]
pub(crate) fn put_entries<T: LineTaker>(
    to: &mut T,
    text: &mut Vec<u8>,
    book: &AccountBook,
) -> Result<(), SinkFault>
    ensures { HasPut T.with_line T.IsPart 0 (T.taken to.old) (map account_words (frozen_of credential_cmp book.now))
        (T.taken to.new) (T.faults to.old) (T.faults to.new) result }
{
    let entries = FrozenEntries {
        rest: book.frozen_past(None),
    };
    put_left(to, text, entries)
}

/// Hands over the frozen DReps.
pub(crate) fn put_dreps<T: LineTaker>(
    to: &mut T,
    text: &mut Vec<u8>,
    dreps: &[(Credential, u64)],
) -> Result<(), SinkFault>
    ensures { HasPut T.with_line T.IsPart 0 (T.taken to.old) (map expiry_words dreps.now) (T.taken to.new)
        (T.faults to.old) (T.faults to.new) result }
{
    put_left(to, text, FrozenDreps { rest: dreps })
}

/// Hands over the frozen entries of cold keys.
pub(crate) fn put_keys<T: LineTaker>(
    to: &mut T,
    text: &mut Vec<u8>,
    keys: &[(Credential, HotState)],
) -> Result<(), SinkFault>
    ensures { HasPut T.with_line T.IsPart 0 (T.taken to.old) (map hot_words keys.now) (T.taken to.new)
        (T.faults to.old) (T.faults to.new) result }
{
    put_left(to, text, FrozenKeys { rest: keys })
}

/// Hands over the pools of mark with their accounts.
pub(crate) fn put_pools<T: LineTaker>(
    to: &mut T,
    text: &mut Vec<u8>,
    pools: &[FrozenPool],
) -> Result<(), SinkFault>
    ensures { HasPut T.with_line T.IsPart 0 (T.taken to.old) (map pool_words pools.now) (T.taken to.new)
        (T.faults to.old) (T.faults to.new) result }
{
    put_left(to, text, FrozenPools { rest: pools })
}
