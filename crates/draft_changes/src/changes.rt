ghost use Rattle.std.specs.Prelude.{◌≡◌, IfOk, OnOk, map};
ghost use Rattle.book_records.specs.Dormancy.{AllFit};
ghost use Rattle.gov_ids.specs.Orders.{credential_cmp, pool_cmp};
ghost use Rattle.draft_changes.specs.Balances.{KeepsOutputs, NoneRises};
ghost use Rattle.draft_changes.specs.Changed.{with_registrations};
ghost use Rattle.draft_changes.specs.ChangedDreps.{laid_over};
ghost use Rattle.draft_changes.specs.ChangedParts.{changed_of};
ghost use Rattle.draft_changes.specs.Names.{AreInOrder, names_of};
ghost use Rattle.maps.specs.Maps.{IsMap, with_values};
ghost use Rattle.ledger_books.specs.of_proposal_store.Leaving.{without_votes_of};
ghost use Rattle.stake_book.specs.Stakes.{HasRoom, accounts_of, without_dreps};

use crate::account_changes::AccountChanges;
use crate::changed_names::ChangedNames;
use crate::drep_changes::DrepChanges;
use crate::hot_changes::HotChanges;
use crate::pool_changes::PoolChanges;
use crate::voters::VoterChanges;
use coin_frac::NoMemory;
use ledger_books::Books;
use ledger_books::of_proposal_store::ProposalStore;
use listed::Listed;
use stake_book::StakeBook;
use std::alloc::Global;
use std::marker::Model;

/// What a draft changes.
#[derive(Drop)]
pub struct Changes {
    accounts: AccountChanges,
    voters: VoterChanges,
}

impl Model for Changes {
    ghost use Rattle.draft_changes.specs.Changed.{Changed};
    ghost use Rattle.draft_changes.specs.ChangedParts.{changed_of};

    ghost Value = { Changed };

    ghost view = { λ a. changed_of a.accounts a.voters.pools.entries a.voters.dreps a.voters.hot.entries };
}

impl Changes {
    /// The changes of these parts.
    pub fn of_parts(
        accounts: AccountChanges,
        pools: PoolChanges,
        dreps: DrepChanges,
        hot: HotChanges,
    ) -> Changes
        ensures { result ≡ changed_of accounts pools.entries dreps hot.entries }
    {
        Changes {
            accounts,
            voters: VoterChanges { pools, dreps, hot },
        }
    }

    /// The names that these changes touch.
    pub fn names(&self, alloc: Global) -> Result<ChangedNames, NoMemory>
        ensures names { IfOk result (λ names. names ≡ names_of self.now) }
        ensures in_order { OnOk result (AreInOrder (names_of self.now)) }
    {
        let VoterChanges { pools, dreps, hot } = &self.voters;
        Ok(ChangedNames {
            accounts: Listed::from_vec(self.accounts.changed(alloc)?),
            left: Listed::from_vec(self.accounts.left(alloc)?),
            pools: Listed::from_vec(pools.changed(alloc)?),
            dreps: Listed::from_vec(dreps.changed(alloc)?),
            refreshed: dreps.is_refreshed(),
            hot: Listed::from_vec(hot.changed(alloc)?),
        })
    }

    /// Lays these changes over the books. None raises a balance, so there is room for all.
    /// After `NoMemory` the caller drops the books.
    pub fn lay_over(self, alloc: Global, b: &mut Books) -> Result<(), NoMemory>
        requires stake { IsMap credential_cmp (accounts_of b.old.stake) × HasRoom 0 b.old.stake }
        requires lower { NoneRises self.accounts (without_dreps self.left (accounts_of b.old.stake)) }
        requires fit { AllFit b.old.dreps.dormant b.old.dreps.dreps }
        ensures accounts { OnOk result (accounts_of b.new.stake ≡
            with_registrations self.accounts (without_dreps self.left (accounts_of b.old.stake))) }
        ensures rest { OnOk result (KeepsOutputs b.old.stake b.new.stake) }
        ensures proposals { OnOk result (b.new.proposals ≡ map (without_votes_of self.left) b.old.proposals) }
        ensures pools { OnOk result (b.new.pools ≡ with_values pool_cmp self.pools b.old.pools) }
        ensures dreps { OnOk result (b.new.dreps ≡
            laid_over (record { dreps = self.dreps; refreshed = self.refreshed }) b.old.epoch b.old.dreps) }
        ensures hot { OnOk result (b.new.hot ≡ with_values credential_cmp self.hot b.old.hot) }
        ensures others { b.new ≡ record b.old {
          stake = b.new.stake;
          proposals = b.new.proposals;
          pools = b.new.pools;
          dreps = b.new.dreps;
          hot = b.new.hot;
        } }
    {
        self.voters
            .lay_over(alloc, b.epoch, &mut b.pools, &mut b.dreps, &mut b.hot)?;
        lay_accounts_over(alloc, self.accounts, &mut b.stake, &mut b.proposals)
    }
}

/// Lays the accounts' changes over their book, and removes the votes of the DReps that left.
fn lay_accounts_over(
    alloc: Global,
    accounts: AccountChanges,
    stake: &mut StakeBook,
    proposals: &mut ProposalStore,
) -> Result<(), NoMemory>
    requires stake { IsMap credential_cmp (accounts_of stake.old) × HasRoom 0 stake.old }
    requires lower { NoneRises accounts.accounts (without_dreps accounts.left (accounts_of stake.old)) }
    ensures accounts { OnOk result (accounts_of stake.new ≡
        with_registrations accounts.accounts (without_dreps accounts.left (accounts_of stake.old))) }
    ensures rest { OnOk result (KeepsOutputs stake.old stake.new) }
    ensures proposals { OnOk result (proposals.new ≡ map (without_votes_of accounts.left) proposals.old) }
{
    if accounts.is_none() {
        return Ok(());
    }
    let left = accounts.left(alloc)?;
    proposals.clear_votes_of(&left);
    accounts.lay_over(stake, &left)
}
