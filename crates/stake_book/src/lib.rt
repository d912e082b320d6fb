//! The book of outputs and accounts, in which each account's stake is what its outputs hold.
#![tactic(auto)]

ghost use Rattle.std.specs.Prelude.{◌≡◌, ◌+◌, ◌-◌, ◌≤◌, [], ◌∷◌, Some, OnOk, OnErr, IfOk};
ghost use Rattle.gov_ids.specs.declared.Credential.{Credential};
ghost use Rattle.gov_ids.specs.Orders.{credential_cmp, outref_cmp, txid_cmp};
ghost use Rattle.coin_frac.specs.declared.TheConstants.{SUPPLY_LIMIT};
ghost use Rattle.book_records.specs.Outputs.{lovelace_in};
ghost use Rattle.maps.specs.Maps.{value_at, changed_at, with_key, without_member};
ghost use Rattle.maps.specs.Replaced.{with_option};
ghost use Rattle.view_map.specs.View.{frozen_of};
ghost use Rattle.stake_book.specs.Stakes.{AreKept, HasRoom, accounts_of, balances_in, no_stakes, pool_stake_in};
ghost use Rattle.stake_book.specs.Stakes.{stake_at, with_stake, spent, added, with_account, with_used};
ghost use Rattle.stake_book.specs.Stakes.{without_pools, without_dreps};
ghost use Rattle.stake_book.specs.Sums.{weight_in};
ghost use Rattle.stake_book.specs.Ended.{entry_without, entries_without, accounts_without, ended_at};

mod amounts;
mod changes;
mod counted;
mod delegators;
mod leaving;
mod pay;
mod running;
mod spending;
mod summed;

pub use accounts as of_accounts;
use accounts::AccountBook;
pub use book_records::{Entry, Output, Registered};
use changes::EntryChange;
use coin_frac::NoMemory;
use gov_ids::{Credential, OutRef, PoolId, TxId};
use hash_seed::HashSeed;
use leaving::Leaving;
use maps::set_of;
use std::alloc::Global;
use std::marker::Model;
use summed::SummedAccounts;
use utxo_set::UtxoSet;

/// The outputs and the accounts.
/// Running sums hold each account's stake, each pool's stake and the reward balances.
/// (UTxOState and DState of the formal specification; the running sums are own)
pub struct StakeBook {
    alloc: Global,
    outputs: UtxoSet,
    accounts: SummedAccounts,
}

// By hand, so that it is proved once: each crate above would prove a derived one part by part.
impl Drop for StakeBook {
    fn drop(self) {
        let StakeBook {
            alloc: _alloc,
            outputs: _outputs,
            accounts: _accounts,
        } = self;
    }
}

impl Model for StakeBook {
    ghost use Rattle.stake_book.specs.Stakes.{Stakes, AreKept};

    ghost Value = { Stakes };

    ghost view = { λ a. record { outputs = a.outputs; accounts = a.accounts } };

    ghost invariant = { λ a. AreKept (record { outputs = a.outputs; accounts = a.accounts }) };
}

// Adds to the stake of a stake part; without one nothing changes.
fn raise_stake(
    accounts: &mut SummedAccounts,
    part: Option<Credential>,
    gained: u64,
) -> Result<(), NoMemory>
    requires room { weight_in (with_stake part (λ c. stake_at accounts.old.live c + gained) accounts.old).live ≤
        SUPPLY_LIMIT }
    ensures ok { OnOk result (accounts.new ≡
        with_stake part (λ c. stake_at accounts.old.live c + gained) accounts.old) }
    ensures frozen { frozen_of credential_cmp accounts.new ≡ frozen_of credential_cmp accounts.old }
    ensures err { OnErr result (accounts.new ≡ accounts.old) }
{
    let Some(c) = part else {
        return Ok(());
    };
    accounts.change(c, &EntryChange::Gain(gained))?;
    Ok(())
}

// Takes from the stake of a stake part; without one nothing changes.
fn lower_stake(
    accounts: &mut SummedAccounts,
    part: Option<Credential>,
    lost: u64,
) -> Result<(), NoMemory>
    requires enough { (c : Credential) → part ≡ Some c → lost ≤ stake_at accounts.old.live c }
    requires room { weight_in (with_stake part (λ c. stake_at accounts.old.live c - lost) accounts.old).live ≤
        SUPPLY_LIMIT }
    ensures ok { OnOk result (accounts.new ≡ with_stake part (λ c. stake_at accounts.old.live c - lost) accounts.old) }
    ensures frozen { frozen_of credential_cmp accounts.new ≡ frozen_of credential_cmp accounts.old }
    ensures err { OnErr result (accounts.new ≡ accounts.old) }
{
    let Some(c) = part else {
        return Ok(());
    };
    accounts.change(c, &EntryChange::Lose(lost))?;
    Ok(())
}

impl StakeBook {
    /// An empty book; the seed is of the table of used ids.
    /// (UTxOState and DState of the formal specification)
    pub fn new(alloc: Global, seed: HashSeed) -> StakeBook
        ensures { result ≡ no_stakes }
    {
        StakeBook {
            alloc,
            outputs: UtxoSet::new(alloc, seed),
            accounts: SummedAccounts::new(alloc),
        }
    }

    /// The accounts. (DState of the formal specification)
    pub fn book(&self) -> &AccountBook
        ensures value { result.now ≡ self.now.accounts }
        ensures kept { AreKept self.now }
    {
        self.accounts.book()
    }

    /// The outputs and the used transaction ids. (UTxOState of the formal specification)
    pub fn outputs(&self) -> &UtxoSet
        ensures value { result.now ≡ self.now.outputs }
        ensures kept { AreKept self.now }
    {
        &self.outputs
    }

    /// The registration of a credential, if it has one. (DState of the formal specification)
    pub fn account(&self, c: &Credential) -> Option<Registered>
        ensures value { result ≡ value_at credential_cmp (accounts_of self.now) c.now }
        ensures kept { AreKept self.now }
    {
        self.accounts.entry_of(c).registered
    }

    /// The sum of the reward balances, in lovelace. (DState of the formal specification)
    pub fn balances(&self) -> u64
        ensures sum { result ≡ balances_in (accounts_of self.now) }
        ensures kept { AreKept self.now }
    {
        self.accounts.balances()
    }

    /// The output stake and the balances of the accounts that delegate to a pool, in lovelace.
    /// (The stake distribution of SNAP in the formal specification)
    pub fn pool_stake(&self, p: &PoolId) -> u64
        ensures sum { result ≡ pool_stake_in self.now p.now }
        ensures kept { AreKept self.now }
    {
        self.accounts.pool_stake(p)
    }

    /// Removes the output at a reference and returns it, if there is one.
    /// `NoMemory` changes nothing. (UTXO of the formal specification)
    pub fn spend(&mut self, r: &OutRef) -> Result<Option<Output>, NoMemory>
        ensures value { IfOk result (λ o. o ≡ value_at outref_cmp self.old.outputs.outputs r.now) }
        ensures ok { OnOk result (self.new ≡ spent r.now self.old) }
        ensures registered { accounts_of self.new ≡ accounts_of self.old }
        ensures frozen { frozen_of credential_cmp self.new.accounts ≡ frozen_of credential_cmp self.old.accounts }
        ensures err { OnErr result (self.new ≡ self.old) }
    {
        let output = self.outputs.take_with(r, &mut self.accounts)?;
        Ok(output)
    }

    /// Adds an output at a new reference. `NoMemory` changes nothing.
    /// (UTXO of the formal specification)
    pub fn add(&mut self, r: OutRef, o: Output) -> Result<(), NoMemory>
        requires absent { value_at outref_cmp self.old.outputs.outputs r ≡ None }
        requires room { HasRoom o.lovelace self.old }
        ensures ok { OnOk result (self.new ≡ added r o self.old) }
        ensures registered { accounts_of self.new ≡ accounts_of self.old }
        ensures frozen { frozen_of credential_cmp self.new.accounts ≡ frozen_of credential_cmp self.old.accounts }
        ensures err { OnErr result (self.new ≡ self.old) }
    {
        let part = o.address.stake;
        let lovelace = o.lovelace;
        self.outputs.put(r, o)?;
        if let Err(error) = raise_stake(&mut self.accounts, part, lovelace) {
            self.outputs.take(&r);
            return Err(error);
        }
        Ok(())
    }

    /// Sets the registration of a credential, or ends it. `NoMemory` changes nothing.
    /// (DELEG of the formal specification)
    pub fn set_account(&mut self, c: Credential, to: Option<Registered>) -> Result<(), NoMemory>
        requires room { lovelace_in self.old.outputs.outputs
            + balances_in (with_option credential_cmp c to (accounts_of self.old)) ≤ SUPPLY_LIMIT }
        ensures ok { OnOk result (self.new ≡ with_account c to self.old) }
        ensures registered { OnOk result (accounts_of self.new ≡
            with_option credential_cmp c to (accounts_of self.old)) }
        ensures frozen { frozen_of credential_cmp self.new.accounts ≡ frozen_of credential_cmp self.old.accounts }
        ensures err { OnErr result (self.new ≡ self.old) }
    {
        self.accounts.change(c, &EntryChange::Register(to))?;
        Ok(())
    }

    /// Ends the delegations to these pools in one scan of the accounts; without delegators in none.
    /// Memory is for the pools and their delegators only.
    /// After `NoMemory` some have ended: drop the book. (POOLREAP of the formal specification)
    pub fn clear_pools(&mut self, pools: &[PoolId]) -> Result<(), NoMemory>
        ensures outputs { OnOk result (self.new.outputs ≡ self.old.outputs) }
        ensures registered { OnOk result (accounts_of self.new ≡ without_pools pools.now (accounts_of self.old)) }
        ensures frozen { OnOk result (frozen_of credential_cmp self.new.accounts ≡
            frozen_of credential_cmp self.old.accounts) }
    {
        if pools.is_empty() {
            return Ok(());
        }
        let pools = set_of(self.alloc, pools)?;
        self.clear(&Leaving::Pools(pools))?;
        Ok(())
    }

    /// Ends the delegations to a pool, like `clear_pools`. (POOLREAP of the formal specification)
    pub fn clear_pool(&mut self, p: &PoolId) -> Result<(), NoMemory>
        ensures outputs { OnOk result (self.new.outputs ≡ self.old.outputs) }
        ensures registered { OnOk result (accounts_of self.new ≡ without_pools (p.now ∷ []) (accounts_of self.old)) }
        ensures frozen { OnOk result (frozen_of credential_cmp self.new.accounts ≡
            frozen_of credential_cmp self.old.accounts) }
    {
        self.clear_pools(&[*p])
    }

    /// Ends the delegations to these DReps in one scan of the accounts; without delegators in none.
    /// Memory is for the DReps and their delegators only. After `NoMemory` some have ended: drop
    /// the book. (GOVCERT of the formal specification; that they end at once is own)
    pub fn clear_dreps(&mut self, dreps: &[Credential]) -> Result<(), NoMemory>
        ensures outputs { OnOk result (self.new.outputs ≡ self.old.outputs) }
        ensures registered { OnOk result (accounts_of self.new ≡ without_dreps dreps.now (accounts_of self.old)) }
        ensures frozen { OnOk result (frozen_of credential_cmp self.new.accounts ≡
            frozen_of credential_cmp self.old.accounts) }
    {
        if dreps.is_empty() {
            return Ok(());
        }
        let dreps = set_of(self.alloc, dreps)?;
        self.clear(&Leaving::Dreps(dreps))?;
        Ok(())
    }

    /// Ends the delegations to a DRep, like `clear_dreps`.
    /// (GOVCERT of the formal specification; that they end at once is own)
    pub fn clear_drep(&mut self, c: &Credential) -> Result<(), NoMemory>
        ensures outputs { OnOk result (self.new.outputs ≡ self.old.outputs) }
        ensures registered { OnOk result (accounts_of self.new ≡ without_dreps (c.now ∷ []) (accounts_of self.old)) }
        ensures frozen { OnOk result (frozen_of credential_cmp self.new.accounts ≡
            frozen_of credential_cmp self.old.accounts) }
    {
        self.clear_dreps(&[*c])
    }

    // Ends the delegations to what leaves.
    fn clear(&mut self, leaving: &Leaving) -> Result<(), NoMemory>
        ensures outputs { OnOk result (self.new.outputs ≡ self.old.outputs) }
        ensures live { OnOk result (self.new.accounts.live ≡ entries_without leaving.now self.old.accounts.live) }
        ensures frozen { OnOk result (frozen_of credential_cmp self.new.accounts ≡
            frozen_of credential_cmp self.old.accounts) }
    {
        let delegating = self.accounts.delegating(self.alloc, leaving)?;
        self.clear_each(delegating.as_slice(), leaving)?;
        Ok(())
    }

    // Ends the delegations of these accounts to what leaves, one after another.
    fn clear_each(&mut self, delegating: &[Credential], leaving: &Leaving) -> Result<(), NoMemory>
        ensures outputs { OnOk result (self.new.outputs ≡ self.old.outputs) }
        ensures live { OnOk result (self.new.accounts.live ≡
            ended_at leaving.now delegating.now self.old.accounts.live) }
        ensures frozen { OnOk result (frozen_of credential_cmp self.new.accounts ≡
            frozen_of credential_cmp self.old.accounts) }
    {
        for c in delegating {
            self.clear_at(*c, leaving)?;
        }
        Ok(())
    }

    // Ends the delegation of one account to what leaves, if it has one.
    fn clear_at(&mut self, c: Credential, leaving: &Leaving) -> Result<(), NoMemory>
        ensures outputs { OnOk result (self.new.outputs ≡ self.old.outputs) }
        ensures live { OnOk result (self.new.accounts.live ≡
            changed_at credential_cmp c (entry_without leaving.now) self.old.accounts.live) }
        ensures frozen { OnOk result (frozen_of credential_cmp self.new.accounts ≡
            frozen_of credential_cmp self.old.accounts) }
    {
        self.accounts.change(c, &EntryChange::Clear(leaving))?;
        Ok(())
    }

    /// Adds an id to the used ones. `NoMemory` changes nothing.
    pub fn mark_used(&mut self, id: TxId) -> Result<(), NoMemory>
        ensures ok { OnOk result (self.new ≡ with_used (with_key txid_cmp id self.old.outputs.used) self.old) }
        ensures registered { accounts_of self.new ≡ accounts_of self.old }
        ensures err { OnErr result (self.new ≡ self.old) }
    {
        self.outputs.mark_used(id)
    }

    /// Removes an id from the used ones.
    pub fn unmark(&mut self, id: &TxId)
        ensures value { self.new ≡ with_used (without_member txid_cmp id.now self.old.outputs.used) self.old }
        ensures registered { accounts_of self.new ≡ accounts_of self.old }
    {
        self.outputs.unmark(id);
    }

    /// Sets the entry of a credential at the last freeze, or its absence. The live entry stays.
    /// `NoMemory` changes nothing.
    pub fn note_first(&mut self, c: Credential, first: Option<Entry>) -> Result<(), NoMemory>
        ensures kept { AreKept self.old }
        ensures ok { OnOk result (self.new ≡ record self.old {
          accounts = record self.old.accounts { frozen = with_option credential_cmp c first self.old.accounts.frozen };
        }) }
        ensures err { OnErr result (self.new ≡ self.old) }
    {
        self.accounts.note_first(c, first)
    }

    /// Freezes the live entries. It takes no memory and copies no entry.
    /// (SNAP of the formal specification; the representation is own)
    pub fn freeze(&mut self)
        ensures kept { AreKept self.old }
        ensures fields { self.new ≡ record self.old { accounts = record self.old.accounts { frozen = self.old.accounts.live } } }
        ensures registered { accounts_of self.new ≡ accounts_of self.old }
        ensures frozen { frozen_of credential_cmp self.new.accounts ≡ self.old.accounts.live }
    {
        self.accounts.freeze();
    }
}
