ghost use Rattle.std.specs.Prelude.{◌≡◌, OnOk, IfOk, None, if◌then◌else◌, map, take};
ghost use Rattle.gov_ids.specs.Orders.{credential_cmp, outref_cmp, pool_cmp};
ghost use Rattle.ledger_books.specs.Parts.{IsStep, frozen_entries};
ghost use Rattle.stake_book.specs.Stakes.{accounts_of};
ghost use Rattle.undo_back.specs.Undoable.{AreHoldingsOld, AreUndoable};
ghost use Rattle.undo_model.specs.Undone.{undone, with_old, with_old_votes, without_unused};
ghost use Rattle.view_map.specs.View.{frozen_of};

use crate::proposals::restore_proposals;
use crate::stake::{forget_id, restore_holdings};
use crate::voters::{restore_dreps, restore_hot, restore_pools};
use cert_pool::PoolBook;
use committee_book::HotBook;
use drep_book::DrepBook;
use ledger_books::Books;
use no_memory::NoMemory;
use proposal_store::ProposalStore;
use stake_book::StakeBook;
use undo_records::{Before, OldEntries, OldValues};

/// The books with these old values put back; the frozen entries stay.
/// It visits only what the old values name. After `NoMemory` there are no books.
pub fn undo_books(b: Books, before: Before) -> Result<Books, NoMemory>
    requires { AreUndoable b before }
    ensures world { IfOk result (λ r. IsStep (undone before) b r) }
    ensures frozen { IfOk result (λ r. frozen_entries r ≡ frozen_entries b) }
{
    let mut books = b;
    let (values, entries) = before.into_parts();
    match restore_books(&mut books, &values, entries) {
        Ok(()) => {
            set_values(&mut books, &values);
            Ok(books)
        }
        Err(error) => {
            drop((books, values));
            Err(error)
        }
    }
}

// Sets the old values of which the books have one each. A reward update stays if one was pending.
fn set_values(b: &mut Books, values: &OldValues)
    ensures { b.new ≡ record b.old {
      slot = values.now.slot;
      fees = values.now.fees;
      donations = values.now.donations;
      pending = if values.now.had_pending then b.old.pending else None;
    } }
{
    b.slot = values.slot;
    b.fees = values.fees;
    b.donations = values.donations;
    if !values.had_pending {
        b.pending = None;
    }
}

// Puts the old entries back, forgets the id and keeps the proposals that there were.
fn restore_books(b: &mut Books, values: &OldValues, entries: OldEntries) -> Result<(), NoMemory>
    requires { AreHoldingsOld entries.outputs entries.accounts b.old.stake }
    ensures outputs { OnOk result (b.new.stake.outputs ≡ record {
      outputs = with_old outref_cmp entries.outputs b.old.stake.outputs.outputs;
      used = without_unused values.now.unused b.old.stake.outputs.used;
    }) }
    ensures accounts { OnOk result (accounts_of b.new.stake ≡
        with_old credential_cmp entries.accounts (accounts_of b.old.stake)) }
    ensures frozen { OnOk result (frozen_of credential_cmp b.new.stake.accounts ≡
        frozen_of credential_cmp b.old.stake.accounts) }
    ensures pools { OnOk result (b.new.pools ≡ with_old pool_cmp entries.pools b.old.pools) }
    ensures dreps { OnOk result (b.new.dreps ≡ record {
      dreps = with_old credential_cmp entries.dreps b.old.dreps.dreps;
      dormant = values.now.dormant;
    }) }
    ensures hot { OnOk result (b.new.hot ≡ with_old credential_cmp entries.hot b.old.hot) }
    ensures proposals { OnOk result (b.new.proposals ≡
        map (with_old_votes entries.votes) (take values.now.proposals b.old.proposals)) }
    ensures others { b.new ≡ record b.old {
      stake = b.new.stake;
      pools = b.new.pools;
      dreps = b.new.dreps;
      hot = b.new.hot;
      proposals = b.new.proposals;
    } }
{
    restore_voters(
        &mut b.pools,
        &mut b.dreps,
        &mut b.hot,
        values.dormant,
        &entries,
    )?;
    restore_proposals(&mut b.proposals, values.proposals, entries.votes.as_slice())?;
    restore_stake(&mut b.stake, values, entries)
}

// Puts old pools, DReps, hot keys and the dormant count back.
fn restore_voters(
    pools: &mut PoolBook,
    dreps: &mut DrepBook,
    hot: &mut HotBook,
    dormant: u64,
    entries: &OldEntries,
) -> Result<(), NoMemory>
    ensures pools { OnOk result (pools.new ≡ with_old pool_cmp entries.now.pools pools.old) }
    ensures dreps { OnOk result (dreps.new ≡
        record { dreps = with_old credential_cmp entries.now.dreps dreps.old.dreps; dormant = dormant }) }
    ensures hot { OnOk result (hot.new ≡ with_old credential_cmp entries.now.hot hot.old) }
{
    restore_pools(pools, entries.pools.as_slice())?;
    restore_dreps(dreps, dormant, entries.dreps.as_slice())?;
    restore_hot(hot, entries.hot.as_slice())
}

// Puts old outputs and accounts back and forgets the id.
fn restore_stake(
    stake: &mut StakeBook,
    values: &OldValues,
    entries: OldEntries,
) -> Result<(), NoMemory>
    requires { AreHoldingsOld entries.outputs entries.accounts stake.old }
    ensures outputs { OnOk result (stake.new.outputs ≡ record {
      outputs = with_old outref_cmp entries.outputs stake.old.outputs.outputs;
      used = without_unused values.now.unused stake.old.outputs.used;
    }) }
    ensures accounts { OnOk result (accounts_of stake.new ≡
        with_old credential_cmp entries.accounts (accounts_of stake.old)) }
    ensures frozen { OnOk result (frozen_of credential_cmp stake.new.accounts ≡
        frozen_of credential_cmp stake.old.accounts) }
{
    let OldEntries {
        outputs,
        accounts,
        pools: _pools,
        dreps: _dreps,
        hot: _hot,
        votes: _votes,
    } = entries;
    forget_id(stake, &values.unused);
    restore_holdings(stake, outputs, accounts.as_slice())
}
