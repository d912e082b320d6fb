ghost use Rattle.std.specs.Prelude.{◌≡◌, ◌+◌, ◌<◌, ◌≤◌, ◌^◌, true, Some, None, is_some, if◌then◌else◌, OnOk, OnErr};
ghost use Rattle.std.specs.Option.{ForSome};
ghost use Rattle.book_records.specs.Pools.{is_key_of_other};
ghost use Rattle.gov_model.specs.Hot.{is_named};
ghost use Rattle.gov_ids.specs.Orders.{credential_cmp, pool_cmp};
ghost use Rattle.ledger_model.specs.Ledger.{account_at, is_pool};
ghost use Rattle.ledger_model.specs.ProposalRules.{is_seated};
ghost use Rattle.draft_changes.specs.Changed.{laid_over};
ghost use Rattle.live_ledger.specs.Drafts.{IsDraftOf, IsTimely, deposit_in, draft_at, drep_deposit_in, given_back, paid_by};
ghost use Rattle.live_ledger.specs.Drafts.{with_account, with_drep, with_hot, with_pool, with_pool_registered};
ghost use Rattle.live_ledger.specs.Drafts.{with_pool_retiring, with_refresh};
ghost use Rattle.maps.specs.Maps.{IsMap, value_at};
ghost use Rattle.dormant_laws.specs.of_run_model.Laws.{IsWithinDormantBound};

use crate::state::LiveLedger;
use book_records::{DrepState, Pool, PoolTerms, Registered};
use coin_frac::NoMemory;
use draft_changes::{AccountChanges, Changes, DrepChanges, HotChanges, PoolChanges};
use genesis_books::of_cert_pool::registered;
use gov_actions::HotState;
use gov_ids::{Credential, PoolId};
use std::alloc::Global;
use std::marker::Model;

/// A ledger with a transaction's changes so far, and what its certificates gave back and paid.
/// It borrows the ledger. (CERTS of the formal specification)
#[derive(Drop)]
pub struct Draft<'a> {
    start: &'a LiveLedger,
    accounts: AccountChanges,
    pools: PoolChanges,
    dreps: DrepChanges,
    hot: HotChanges,
    refunds: u128,
    deposits: u128,
    changes: u64,
}

impl<'a> Model for Draft<'a> {
    ghost use Rattle.std.specs.Coded.{codes};
    ghost use Rattle.draft_changes.specs.ChangedParts.{changed_of};
    ghost use Rattle.live_ledger.specs.DraftParts.{IsDrafted};
    ghost use Rattle.draft_changes.specs.Changed.{laid_over};
    ghost use Rattle.live_ledger.specs.Drafts.{Drafted};

    ghost Value = { Drafted };

    ghost coded = { Prim.hlevel codes };

    ghost view = { λ a. record {
      start = a.start.now.ledger;
      ledger = laid_over (changed_of a.accounts a.pools.entries a.dreps a.hot.entries) a.start.now.ledger;
      refunds = a.refunds;
      deposits = a.deposits;
      changes = a.changes;
    } };

    ghost invariant = { λ a. IsDrafted a.start.now.ledger (changed_of a.accounts a.pools.entries a.dreps a.hot.entries)
        a.pools a.hot a.refunds a.deposits a.accounts.changes a.changes };
}

/// The deposit of a registration, in lovelace.
fn deposit_in(account: Option<Registered>) -> Option<u64>
    ensures { result ≡ deposit_in account }
{
    Some(account?.deposit)
}

/// The deposit of a DRep, in lovelace.
fn drep_deposit_in(drep: Option<DrepState>) -> Option<u64>
    ensures { result ≡ drep_deposit_in drep }
{
    Some(drep?.deposit)
}

/// What a new entry pays, in lovelace: its deposit, if there was none before.
fn paid_by(before: Option<u64>, after: Option<u64>) -> u64
    ensures { result ≡ paid_by before after }
{
    match (before, after) {
        (None, Some(deposit)) => deposit,
        _ => 0,
    }
}

/// What an entry that leaves gives back, in lovelace: its stored deposit.
fn given_back(before: Option<u64>, after: Option<u64>) -> u64
    ensures { result ≡ given_back before after }
{
    match (before, after) {
        (Some(deposit), None) => deposit,
        _ => 0,
    }
}

/// What the registration of a pool pays, in lovelace: its deposit, if it was not registered.
fn paid_for(known: &Option<Pool>, deposit: u64) -> u64
    ensures { result ≡ (if is_some known.now then 0 else deposit) }
{
    if known.is_some() { 0 } else { deposit }
}

impl<'a> Draft<'a> {
    /// A draft before any change. It takes no memory.
    pub fn new(alloc: Global, s: &'a LiveLedger) -> Draft<'a>
        ensures { result ≡ draft_at s.now.ledger }
    {
        Draft {
            start: s,
            accounts: AccountChanges::new(alloc),
            pools: PoolChanges::new(alloc),
            dreps: DrepChanges::new(alloc, s.dreps().dormant() == 0),
            hot: HotChanges::new(alloc),
            refunds: 0,
            deposits: 0,
            changes: 0,
        }
    }

    /// The ledger before the transaction.
    pub fn start(&self) -> &LiveLedger
        ensures start { result.now.ledger ≡ self.now.start }
        ensures rest { IsDraftOf self.now.start self.now.ledger }
    {
        self.start
    }

    /// The registration of a credential, or none. (DState of the formal specification)
    pub fn account(&self, c: &Credential) -> Option<Registered>
        ensures value { result ≡ account_at self.now.ledger c.now }
        ensures map { IsMap credential_cmp self.now.ledger.accounts }
        ensures start_map { IsMap credential_cmp self.now.start.accounts }
    {
        self.accounts.latest(c, self.start.stake().account(c))
    }

    /// A registered pool, or none. (PState of the formal specification)
    pub fn pool(&self, p: &PoolId) -> Option<Pool>
        ensures value { result ≡ value_at pool_cmp self.now.ledger.pools p.now }
        ensures map { IsMap pool_cmp self.now.ledger.pools }
        ensures start_map { IsMap pool_cmp self.now.start.pools }
    {
        self.pools.latest(p, self.start.pools())
    }

    /// Whether a pool other than this one has the key, in its current or future terms.
    /// It scans no pools.
    pub fn key_of_other(&self, key: &[u8; 32], p: &PoolId) -> bool
        ensures { result ≡ is_key_of_other key.now p.now self.now.ledger.pools }
    {
        self.pools.key_of_other(key, p, self.start.pools())
    }

    /// A registered DRep, or none. (GState of the formal specification)
    pub fn drep(&self, c: &Credential) -> Option<DrepState>
        ensures value { result ≡ value_at credential_cmp self.now.ledger.dreps c.now }
        ensures map { IsMap credential_cmp self.now.ledger.dreps }
        ensures bound { IsWithinDormantBound self.now.ledger }
    {
        self.dreps.latest(c, self.start.dreps(), self.start.epoch())
    }

    /// The number of epochs that ended without a proposal since the last proposal.
    pub fn dormant(&self) -> u64
        ensures value { result ≡ self.now.ledger.dormant }
        ensures within { self.now.ledger.dormant ≤ self.now.ledger.epoch }
        ensures early { self.now.ledger.epoch ≤ 2 ^ 62 }
    {
        self.dreps.dormant(self.start.dreps())
    }

    /// What a cold key authorized, or none. (GState of the formal specification)
    pub fn hot(&self, cold: &Credential) -> Option<HotState>
        ensures value { result ≡ value_at credential_cmp self.now.ledger.hot cold.now }
        ensures map { IsMap credential_cmp self.now.ledger.hot }
    {
        self.hot.latest(cold, self.start.hot())
    }

    /// Whether a cold key has this hot key, which may then vote for the committee.
    /// (GOV of the formal specification)
    pub fn names_hot(&self, hot: &Credential) -> bool
        ensures { result ≡ is_named self.now.ledger.hot hot.now }
    {
        self.hot.names(hot, self.start.hot())
    }

    /// Whether a member of the committee has this hot key.
    /// It scans the members or the cold keys that have it, whichever are fewer.
    pub fn seats_hot(&self, hot: &Credential) -> bool
        ensures { result ≡ is_seated self.now.ledger hot.now }
    {
        let committee = self.start.state().committee.as_ref();
        self.hot.seats(hot, self.start.hot(), committee)
    }

    /// What the certificates so far gave back, and what they paid, in lovelace.
    /// (DELEG, POOL and GOVCERT of the formal specification)
    pub fn moved(&self) -> (u128, u128)
        ensures refunds { result.0 ≡ self.now.refunds }
        ensures deposits { result.1 ≡ self.now.deposits }
        ensures fits { (self.now.refunds < 2 ^ 96) × (self.now.deposits < 2 ^ 96) }
    {
        (self.refunds, self.deposits)
    }

    /// Registers an account, changes its registration or ends it. `NoMemory`: nothing changed.
    /// A new account pays its deposit; an ended one gives its stored one back; a change adds 0.
    /// (DELEG of the formal specification)
    pub fn set_account(&mut self, c: Credential, to: Option<Registered>) -> Result<(), NoMemory>
        requires few { self.old.changes < 2 ^ 32 }
        ensures ok { OnOk result (self.new ≡ with_account c to self.old) }
        ensures err { OnErr result (self.new ≡ self.old) }
    {
        let before = self.account(&c);
        self.change_account(c, before, to)
    }

    /// Changes an account as `set_account` does, with its looked-up registration `before`.
    /// `NoMemory`: nothing changed. (DELEG of the formal specification)
    pub fn change_account(
        &mut self,
        c: Credential,
        before: Option<Registered>,
        to: Option<Registered>,
    ) -> Result<(), NoMemory>
        requires few { self.old.changes < 2 ^ 32 }
        requires before { before ≡ account_at self.old.ledger c }
        ensures ok { OnOk result (self.new ≡ with_account c to self.old) }
        ensures err { OnErr result (self.new ≡ self.old) }
    {
        let held = deposit_in(before);
        let kept = deposit_in(to);
        self.accounts.set(c, to)?;
        self.refunds += u128::from(given_back(held, kept));
        self.deposits += u128::from(paid_by(held, kept));
        self.changes += 1;
        Ok(())
    }

    /// Registers a pool. A first registration adds the deposit, in lovelace, to what was paid.
    /// A later one sets the future terms, cancels the retirement and pays nothing.
    /// `NoMemory`: nothing changed. (POOL of the formal specification)
    pub fn register_pool(
        &mut self,
        p: PoolId,
        terms: PoolTerms,
        deposit: u64,
    ) -> Result<(), NoMemory>
        requires few { self.old.changes < 2 ^ 32 }
        ensures ok { OnOk result (self.new ≡ with_pool_registered p terms deposit self.old) }
        ensures err { OnErr result (self.new ≡ self.old) }
    {
        let found = self.pool(&p);
        self.register_found_pool(p, found, terms, deposit)
    }

    /// Registers a pool as `register_pool` does, with its looked-up entry `found`.
    /// `NoMemory`: nothing changed. (POOL of the formal specification)
    pub fn register_found_pool(
        &mut self,
        p: PoolId,
        found: Option<Pool>,
        terms: PoolTerms,
        deposit: u64,
    ) -> Result<(), NoMemory>
        requires few { self.old.changes < 2 ^ 32 }
        requires found { found ≡ value_at pool_cmp self.old.ledger.pools p }
        ensures ok { OnOk result (self.new ≡ with_pool_registered p terms deposit self.old) }
        ensures err { OnErr result (self.new ≡ self.old) }
    {
        let paid = paid_for(&found, deposit);
        self.put_pool(p, registered(found, terms, deposit), paid)
    }

    /// A registered pool retires: the named epoch begins without it.
    /// `NoMemory`: nothing changed. (POOL of the formal specification)
    pub fn retire_pool(&mut self, p: PoolId, epoch: u64) -> Result<(), NoMemory>
        requires registered { is_pool self.old.ledger p ≡ true }
        requires few { self.old.changes < 2 ^ 32 }
        ensures ok { OnOk result (self.new ≡ with_pool_retiring p epoch self.old) }
        ensures err { OnErr result (self.new ≡ self.old) }
    {
        match self.pool(&p) {
            Some(found) => self.retire_found_pool(p, found, epoch),
            None => Ok(()),
        }
    }

    /// A pool retires as by `retire_pool`, with its looked-up entry `found`.
    /// `NoMemory`: nothing changed. (POOL of the formal specification)
    pub fn retire_found_pool(&mut self, p: PoolId, found: Pool, epoch: u64) -> Result<(), NoMemory>
        requires few { self.old.changes < 2 ^ 32 }
        requires found { Some found ≡ value_at pool_cmp self.old.ledger.pools p }
        ensures ok { OnOk result (self.new ≡ with_pool_retiring p epoch self.old) }
        ensures err { OnErr result (self.new ≡ self.old) }
    {
        let retiring = Pool {
            retires: Some(epoch),
            ..found
        };
        self.put_pool(p, retiring, 0)
    }

    /// Puts the pool for the id, instead of any before, for which so much was paid, in lovelace.
    fn put_pool(&mut self, p: PoolId, pool: Pool, paid: u64) -> Result<(), NoMemory>
        requires few { self.old.changes < 2 ^ 32 }
        ensures ok { OnOk result (self.new ≡ with_pool p pool paid self.old) }
        ensures err { OnErr result (self.new ≡ self.old) }
        ensures map { IsMap pool_cmp self.old.ledger.pools }
    {
        self.pools.set(p, pool, self.start.pools())?;
        self.deposits += u128::from(paid);
        self.changes += 1;
        Ok(())
    }

    /// Registers or changes a DRep, or removes it and ends all delegations to it but no later one.
    /// A new one pays its deposit; a removed one gives its stored one back; a change adds 0.
    /// `NoMemory`: drop the draft. (GOVCERT of the formal specification; ending them at once: Own)
    pub fn set_drep(&mut self, c: Credential, to: Option<DrepState>) -> Result<(), NoMemory>
        requires few { self.old.changes < 2 ^ 32 }
        requires timely { ForSome to (IsTimely self.old.ledger) }
        ensures ok { OnOk result (self.new ≡ with_drep c to self.old) }
        ensures start { self.new.start ≡ self.old.start }
        ensures few_more { self.new.changes ≤ self.old.changes + 1 }
    {
        let before = self.drep(&c);
        self.change_drep(c, before, to)
    }

    /// Changes a DRep as `set_drep` does, with its looked-up registration `before`.
    /// `NoMemory`: drop the draft. (GOVCERT of the formal specification)
    pub fn change_drep(
        &mut self,
        c: Credential,
        before: Option<DrepState>,
        to: Option<DrepState>,
    ) -> Result<(), NoMemory>
        requires few { self.old.changes < 2 ^ 32 }
        requires before { before ≡ value_at credential_cmp self.old.ledger.dreps c }
        requires timely { ForSome to (IsTimely self.old.ledger) }
        ensures ok { OnOk result (self.new ≡ with_drep c to self.old) }
        ensures start { self.new.start ≡ self.old.start }
        ensures few_more { self.new.changes ≤ self.old.changes + 1 }
    {
        let held = drep_deposit_in(before);
        match to {
            Some(s) => self.put_drep(c, held, s),
            None => self.remove_drep(c, held),
        }
    }

    /// Puts the DRep for the credential, instead of any before, whose deposit is `before`.
    fn put_drep(&mut self, c: Credential, before: Option<u64>, s: DrepState) -> Result<(), NoMemory>
        requires few { self.old.changes < 2 ^ 32 }
        requires before { before ≡ drep_deposit_in (value_at credential_cmp self.old.ledger.dreps c) }
        requires timely { IsTimely self.old.ledger s }
        ensures ok { OnOk result (self.new ≡ with_drep c (Some s) self.old) }
        ensures err { OnErr result (self.new ≡ self.old) }
    {
        let after = Some(s.deposit);
        self.dreps.set(c, Some(s))?;
        self.refunds += u128::from(given_back(before, after));
        self.deposits += u128::from(paid_by(before, after));
        self.changes += 1;
        Ok(())
    }

    /// Removes the DRep, whose deposit is `before`, and the delegations to it.
    fn remove_drep(&mut self, c: Credential, before: Option<u64>) -> Result<(), NoMemory>
        requires few { self.old.changes < 2 ^ 32 }
        requires before { before ≡ drep_deposit_in (value_at credential_cmp self.old.ledger.dreps c) }
        ensures ok { OnOk result (self.new ≡ with_drep c None self.old) }
        ensures start { self.new.start ≡ self.old.start }
        ensures few_more { self.new.changes ≤ self.old.changes + 1 }
    {
        self.dreps.set(c, None)?;
        self.accounts.leave(c)?;
        self.refunds += u128::from(given_back(before, None));
        self.deposits += u128::from(paid_by(before, None));
        self.changes += 1;
        Ok(())
    }

    /// Replaces the cold key's entry by a hot key or a resignation. `NoMemory`: nothing changed.
    /// (GOVCERT of the formal specification)
    pub fn set_hot(&mut self, cold: Credential, s: HotState) -> Result<(), NoMemory>
        requires few { self.old.changes < 2 ^ 32 }
        ensures ok { OnOk result (self.new ≡ with_hot cold s self.old) }
        ensures err { OnErr result (self.new ≡ self.old) }
    {
        self.hot.set(cold, s, self.start.hot())?;
        self.changes += 1;
        Ok(())
    }

    /// Adds the dormant epochs to the expiry of each DRep that with them has not expired.
    /// Then none are left.
    /// It scans the DReps that the draft changed, and none if no epoch is dormant.
    pub fn refresh(&mut self) -> Result<(), NoMemory>
        requires few { self.old.changes < 2 ^ 32 }
        ensures ok { OnOk result (self.new ≡ with_refresh self.old) }
        ensures err { OnErr result (self.new ≡ self.old) }
    {
        self.dreps.refresh(self.start.dreps(), self.start.epoch());
        self.changes += 1;
        Ok(())
    }

    /// The changes, which laid over the ledger before the transaction give the draft.
    pub fn into_changes(self) -> Changes
        ensures { laid_over result self.entry.start ≡ self.entry.ledger }
    {
        Changes::of_parts(self.accounts, self.pools, self.dreps, self.hot)
    }
}
