//! The DReps, the pools of mark, and the account entries.
ghost use Rattle.std.specs.Prelude.{◌++◌, map};
ghost use Rattle.certificate_model.specs.Certificate.{mark_words};
ghost use Rattle.frozen_print.specs.Words.{pool_words, voter_lines};
ghost use Rattle.gov_ids.specs.Orders.{credential_cmp};
ghost use Rattle.report.specs.Taking.{HasPut};
ghost use Rattle.text_forms.specs.Snapshots.{expiry_words};
ghost use Rattle.view_map.specs.View.{frozen_of};

use crate::entries::put_entries;
use crate::line::FrozenLine;
use accounts::AccountBook;
use byte_lines::SinkFault;
use gov_ids::{Credential, PoolId};
use item_lines::{ItemLines, put_items};
use report::{LineTaker, put_one};
use snapshots::{Frozen, FrozenPool};

// DReps with their expiries.
#[derive(Drop)]
struct Expiries;

impl ItemLines for Expiries {
    ghost use Rattle.std.specs.Prelude.{⊤, [], ◌∷◌};
    ghost use Rattle.text_forms.specs.Snapshots.{expiry_words};

    type Item = (Credential, u64);

    ghost can = { λ _. ⊤ };

    ghost lines = { λ _ d. expiry_words d ∷ [] };

    fn put_item<T: LineTaker>(
        &self,
        to: &mut T,
        text: &mut Vec<u8>,
        line: u64,
        item: &(Credential, u64),
    ) -> Result<(), SinkFault> {
        put_one(to, text, line, &FrozenLine::Drep(item))
    }
}

// Pools of mark with their reward accounts.
#[derive(Drop)]
struct PoolAccounts;

impl ItemLines for PoolAccounts {
    ghost use Rattle.std.specs.Prelude.{⊤, [], ◌∷◌};
    ghost use Rattle.frozen_print.specs.Words.{pool_words};

    type Item = FrozenPool;

    ghost can = { λ _. ⊤ };

    ghost lines = { λ _ p. pool_words p ∷ [] };

    fn put_item<T: LineTaker>(
        &self,
        to: &mut T,
        text: &mut Vec<u8>,
        line: u64,
        item: &FrozenPool,
    ) -> Result<(), SinkFault> {
        put_one(to, text, line, &FrozenLine::Pool(item))
    }
}

// Pools of mark with their stakes.
#[derive(Drop)]
struct Mark;

impl ItemLines for Mark {
    ghost use Rattle.std.specs.Prelude.{⊤, [], ◌∷◌};
    ghost use Rattle.certificate_model.specs.Certificate.{mark_words};

    type Item = (PoolId, u64);

    ghost can = { λ _. ⊤ };

    ghost lines = { λ _ s. mark_words s ∷ [] };

    fn put_item<T: LineTaker>(
        &self,
        to: &mut T,
        text: &mut Vec<u8>,
        line: u64,
        item: &(PoolId, u64),
    ) -> Result<(), SinkFault> {
        put_one(to, text, line, &FrozenLine::Mark(item))
    }
}

// Hands over the lines of the DReps.
fn put_dreps<T: LineTaker>(
    to: &mut T,
    text: &mut Vec<u8>,
    line: u64,
    dreps: &[(Credential, u64)],
) -> Result<(), SinkFault>
    ensures { HasPut T.with_line T.IsPart line (T.taken to.old) (map expiry_words dreps.now)
        (T.taken to.new) (T.faults to.old) (T.faults to.new) result }
{
    put_items(to, text, line, &Expiries, dreps)
}

// Hands over the lines of the reward accounts of the pools of mark.
fn put_accounts<T: LineTaker>(
    to: &mut T,
    text: &mut Vec<u8>,
    line: u64,
    pools: &[FrozenPool],
) -> Result<(), SinkFault>
    ensures { HasPut T.with_line T.IsPart line (T.taken to.old) (map pool_words pools.now)
        (T.taken to.new) (T.faults to.old) (T.faults to.new) result }
{
    put_items(to, text, line, &PoolAccounts, pools)
}

// Hands over the lines of the stakes of the pools of mark.
fn put_mark<T: LineTaker>(
    to: &mut T,
    text: &mut Vec<u8>,
    line: u64,
    mark: &[(PoolId, u64)],
) -> Result<(), SinkFault>
    ensures { HasPut T.with_line T.IsPart line (T.taken to.old) (map mark_words mark.now)
        (T.taken to.new) (T.faults to.old) (T.faults to.new) result }
{
    put_items(to, text, line, &Mark, mark)
}

// Hands over the lines of the pools of mark: first all accounts, then all stakes.
fn put_pools<T: LineTaker>(
    to: &mut T,
    text: &mut Vec<u8>,
    line: u64,
    pools: &[FrozenPool],
    mark: &[(PoolId, u64)],
) -> Result<(), SinkFault>
    ensures { HasPut T.with_line T.IsPart line (T.taken to.old) (map pool_words pools.now ++ map mark_words mark.now)
        (T.taken to.new) (T.faults to.old) (T.faults to.new) result }
{
    put_accounts(to, text, line, pools)?;
    put_mark(to, text, line, mark)
}

// Hands over the lines of the DReps, the pools of mark and the account entries.
pub(crate) fn put_voters<T: LineTaker>(
    to: &mut T,
    text: &mut Vec<u8>,
    line: u64,
    f: &Frozen,
    mark: &[(PoolId, u64)],
    accounts: &AccountBook,
) -> Result<(), SinkFault>
    ensures { HasPut T.with_line T.IsPart line (T.taken to.old)
        (voter_lines f.now mark.now (frozen_of credential_cmp accounts.now))
        (T.taken to.new) (T.faults to.old) (T.faults to.new) result }
{
    put_dreps(to, text, line, f.dreps.as_slice())?;
    put_pools(to, text, line, f.pools.as_slice(), mark)?;
    put_entries(to, text, line, accounts)
}
