ghost use Rattle.std.specs.Prelude.{◌≡◌, ◌≤◌, [], IfOk, OnOk, OnErr};
ghost use Rattle.gov_ids.specs.Orders.{credential_cmp};
ghost use Rattle.coin_frac.specs.declared.TheConstants.{SUPPLY_LIMIT};
ghost use Rattle.maps.specs.Maps.{IsMap, sum_values};
ghost use Rattle.maps.specs.Replaced.{with_option};
ghost use Rattle.view_map.specs.View.{frozen_of};
ghost use Rattle.accounts.specs.Accounts.{with_entry, entered};
ghost use Rattle.stake_book.specs.Changes.{entry_after, taken_by};
ghost use Rattle.stake_book.specs.Ended.{delegating};
ghost use Rattle.stake_book.specs.Stakes.{stake_at, whole_entry};
ghost use Rattle.stake_book.specs.Sums.{balance_of, share_of, weight_in};

use crate::changes::{EntryChange, or_nothing};
use crate::leaving::Leaving;
use crate::running::Sums;
use accounts::AccountBook;
use book_records::Entry;
use coin_frac::NoMemory;
use gov_ids::{Credential, PoolId};
use std::alloc::Global;
use std::marker::Model;

/// The accounts, with sums over them. Contracts see the accounts.
#[derive(Drop)]
pub struct SummedAccounts {
    accounts: AccountBook,
    sums: Sums,
}

impl Model for SummedAccounts {
    ghost use Rattle.accounts.specs.Accounts.{Accounts};
    ghost use Rattle.stake_book.specs.Summed.{AreSummed};

    ghost Value = { Accounts };

    ghost view = { λ a. a.accounts };

    ghost invariant = { λ a. AreSummed a.sums a.accounts.live };
}

impl SummedAccounts {
    /// No accounts.
    pub fn new(alloc: Global) -> SummedAccounts
        ensures { result ≡ record { live = []; frozen = [] } }
    {
        SummedAccounts {
            accounts: AccountBook::new(alloc),
            sums: Sums::new(alloc),
        }
    }

    /// The accounts.
    pub fn book(&self) -> &AccountBook
        ensures { result.now ≡ self.now }
    {
        &self.accounts
    }

    /// The entry of a credential; where there is none, one without stake and registration.
    pub fn entry_of(&self, c: &Credential) -> Entry
        ensures value { result ≡ whole_entry self.now.live c.now }
        ensures in_order { IsMap credential_cmp self.now.live }
        ensures within { weight_in self.now.live ≤ SUPPLY_LIMIT }
    {
        or_nothing(self.accounts.get(c))
    }

    /// The credentials of the entries that delegate to what leaves, in order.
    /// It scans the accounts once; where no entry delegates to it, not at all.
    pub fn delegating(&self, alloc: Global, leaving: &Leaving) -> Result<Vec<Credential>, NoMemory>
        ensures value { IfOk result (λ cs. cs.items ≡ delegating leaving.now self.now.live) }
        ensures in_order { IsMap credential_cmp self.now.live }
    {
        let mut delegating = Vec::new(alloc);
        if !self.sums.have_any(leaving) {
            return Ok(delegating);
        }
        for (c, entry) in self.accounts.iter() {
            if leaving.change(entry.registered).is_some() {
                delegating.push(*c)?;
            }
        }
        Ok(delegating)
    }

    /// The sum of the balances, in lovelace.
    pub fn balances(&self) -> u64
        ensures { result ≡ sum_values balance_of self.now.live }
    {
        self.sums.balances()
    }

    /// The stake of a pool, in lovelace.
    pub fn pool_stake(&self, p: &PoolId) -> u64
        ensures value { result ≡ sum_values (share_of p.now) self.now.live }
        ensures in_order { IsMap credential_cmp self.now.live }
    {
        self.sums.pool_stake(p)
    }

    /// Changes an entry, in one search, and returns the entry before.
    /// An entry without stake and registration is removed. `NoMemory` changes nothing.
    pub fn change(&mut self, c: Credential, by: &EntryChange) -> Result<Entry, NoMemory>
        requires enough { taken_by by.now ≤ stake_at self.old.live c }
        requires within { weight_in (with_entry c (entry_after by.now (whole_entry self.old.live c)) self.old.live) ≤
            SUPPLY_LIMIT }
        ensures before { IfOk result (λ e. e ≡ whole_entry self.old.live c) }
        ensures ok { OnOk result (self.new ≡ entered c (entry_after by.now (whole_entry self.old.live c)) self.old) }
        ensures frozen { frozen_of credential_cmp self.new ≡ frozen_of credential_cmp self.old }
        ensures err { OnErr result (self.new ≡ self.old) }
    {
        let before = self.accounts.change(c, by, &mut self.sums)?;
        Ok(or_nothing(before))
    }

    /// Sets the entry of a credential at the last freeze, or its absence. The live entry stays.
    /// `NoMemory` changes nothing.
    pub fn note_first(&mut self, c: Credential, first: Option<Entry>) -> Result<(), NoMemory>
        ensures ok { OnOk result (self.new ≡
            record self.old { frozen = with_option credential_cmp c first self.old.frozen }) }
        ensures err { OnErr result (self.new ≡ self.old) }
    {
        self.accounts.note_first(c, first)
    }

    /// Freezes the live entries. It takes no memory and copies no entry.
    pub fn freeze(&mut self)
        ensures fields { self.new ≡ record self.old { frozen = self.old.live } }
        ensures frozen { frozen_of credential_cmp self.new ≡ self.old.live }
    {
        self.accounts.freeze();
    }
}
