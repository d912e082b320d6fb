ghost use Rattle.std.specs.Prelude.{◌≡◌, ◌<◌, ◌^◌, [], true, IfOk, OnOk, OnErr, if◌then◌else◌, option_map, unwrap_or};
ghost use Rattle.std.specs.Map.{keys_of};
ghost use Rattle.gov_ids.specs.Orders.{credential_cmp};
ghost use Rattle.book_records.specs.Delegations.{without_drep};
ghost use Rattle.draft_changes.specs.Balances.{KeepsOutputs, NoneRises};
ghost use Rattle.draft_changes.specs.ChangedAccounts.{has_left_after, none_changed, standing, standing_of, with_change, with_leaving};
ghost use Rattle.draft_changes.specs.Changed.{with_registrations};
ghost use Rattle.maps.specs.Maps.{IsMap, IsSet, value_at};
ghost use Rattle.stake_book.specs.Stakes.{HasRoom, accounts_of, delegates_to_dreps, without_dreps};

use crate::changed_names::names_in;
use book_records::Registered;
use coin_frac::NoMemory;
use gov_ids::{Credential, Drep};
use stake_book::StakeBook;
use std::alloc::Global;
use std::collections::BTreeMap;
use std::marker::Model;

/// What a change wrote, and its number among the changes, from 1.
#[derive(Clone, Copy)]
pub struct Written {
    /// The number of the change.
    pub number: u64,
    /// The registration, none if it was ended.
    pub to: Option<Registered>,
}

/// The accounts that a draft changed.
/// A DRep that leaves ends the earlier delegations to it, and no later one.
/// The numbers of the changes distinguish these, without a scan of the accounts.
#[derive(Drop)]
pub struct AccountChanges {
    entries: BTreeMap<Credential, Written>,
    left: BTreeMap<Credential, u64>,
    changes: u64,
}

impl Model for AccountChanges {
    ghost use Rattle.std.specs.Map.{keys_of};
    ghost use Rattle.draft_changes.specs.ChangedAccounts.{ChangedAccounts, standing_of};

    ghost Value = { ChangedAccounts };

    ghost use Rattle.draft_changes.specs.Numbered.{AreNumbered};

    ghost view = { λ a. record {
      accounts = standing_of a.left.entries a.entries.entries;
      left = keys_of a.left.entries;
      changes = a.changes;
    } };

    ghost invariant = { λ a. AreNumbered a.changes a.left.entries a.entries.entries };
}

/// Whether the DRep left after the change of this number.
fn has_left_after(left: &BTreeMap<Credential, u64>, number: u64, drep: &Option<Drep>) -> bool
    ensures { result ≡ has_left_after left.now.entries number drep.now }
{
    match drep {
        Some(Drep::Registered(c)) => match left.get(c) {
            Some(leaving) => number < *leaving,
            None => false,
        },
        Some(Drep::Abstain | Drep::NoConfidence) | None => false,
    }
}

/// What the change of this number wrote, without a delegation to a DRep that left later.
fn standing(
    left: &BTreeMap<Credential, u64>,
    number: u64,
    to: Option<Registered>,
) -> Option<Registered>
    ensures { result ≡ option_map (standing left.now.entries number) to }
{
    let r = to?;
    if has_left_after(left, number, &r.drep) {
        return Some(Registered { drep: None, ..r });
    }
    Some(r)
}

impl AccountChanges {
    /// No change.
    pub fn new(alloc: Global) -> AccountChanges
        ensures { result ≡ none_changed }
    {
        AccountChanges {
            entries: BTreeMap::new(alloc),
            left: BTreeMap::new(alloc),
            changes: 0,
        }
    }

    /// The registration of a credential that had this one before the draft.
    pub fn latest(&self, c: &Credential, before: Option<Registered>) -> Option<Registered>
        ensures value { result ≡ unwrap_or (value_at credential_cmp self.now.accounts c.now)
            (option_map (λ r. if delegates_to_dreps self.now.left r then without_drep r else r) before) }
        ensures in_order { IsMap credential_cmp self.now.accounts }
    {
        match self.entries.get(c) {
            Some(written) => standing(&self.left, written.number, written.to),
            None => standing(&self.left, 0, before),
        }
    }

    /// Sets the registration of a credential to `to`. `NoMemory`: nothing changed.
    pub fn set(&mut self, c: Credential, to: Option<Registered>) -> Result<(), NoMemory>
        requires few { self.old.changes < 2 ^ 32 }
        ensures ok { OnOk result (self.new ≡ with_change c to self.old) }
        ensures in_order { IsMap credential_cmp self.old.accounts }
        ensures err { OnErr result (self.new ≡ self.old) }
    {
        let number = self.changes + 1;
        self.entries.insert(c, Written { number, to })?;
        self.changes = number;
        Ok(())
    }

    /// The DRep of a credential leaves: delegations to it end. `NoMemory`: nothing changed.
    pub fn leave(&mut self, c: Credential) -> Result<(), NoMemory>
        requires few { self.old.changes < 2 ^ 32 }
        ensures ok { OnOk result (self.new ≡ with_leaving c self.old) }
        ensures in_order { IsMap credential_cmp self.old.accounts }
        ensures err { OnErr result (self.new ≡ self.old) }
    {
        let number = self.changes + 1;
        self.left.insert(c, number)?;
        self.changes = number;
        Ok(())
    }

    /// Whether no registration was changed and no DRep left.
    pub(crate) fn is_none(&self) -> bool
        ensures accounts { result ≡ true → self.now.accounts ≡ [] }
        ensures left { result ≡ true → self.now.left ≡ [] }
    {
        self.entries.is_empty() && self.left.is_empty()
    }

    /// The credentials whose registration changed, in order.
    pub fn changed(&self, alloc: Global) -> Result<Vec<Credential>, NoMemory>
        ensures names { IfOk result (λ names. names.items ≡ keys_of self.now.accounts) }
        ensures in_order { IsMap credential_cmp self.now.accounts }
    {
        names_in(alloc, &self.entries)
    }

    /// The DReps that left, in order.
    pub fn left(&self, alloc: Global) -> Result<Vec<Credential>, NoMemory>
        ensures names { IfOk result (λ names. names.items ≡ self.now.left) }
        ensures in_order { IsSet credential_cmp self.now.left }
    {
        names_in(alloc, &self.left)
    }

    /// Lays these changes over the book; none raises a balance. `left`: the DReps that left.
    /// It scans the accounts of the book if any DRep left, otherwise the changed ones only.
    /// After `NoMemory` the caller drops the book.
    pub fn lay_over(self, stake: &mut StakeBook, left: &[Credential]) -> Result<(), NoMemory>
        requires in_order { IsMap credential_cmp (accounts_of stake.old) }
        requires room { HasRoom 0 stake.old }
        requires lower { NoneRises self.accounts (without_dreps self.left (accounts_of stake.old)) }
        requires left { left.now ≡ self.left }
        ensures accounts { OnOk result (accounts_of stake.new ≡
            with_registrations self.accounts (without_dreps self.left (accounts_of stake.old))) }
        ensures rest { OnOk result (KeepsOutputs stake.old stake.new) }
    {
        take_left(stake, left)?;
        put_accounts(stake, self.entries, &self.left)
    }
}

/// Ends the delegations to the DReps that left.
fn take_left(stake: &mut StakeBook, left: &[Credential]) -> Result<(), NoMemory>
    requires in_order { IsMap credential_cmp (accounts_of stake.old) }
    requires room { HasRoom 0 stake.old }
    ensures accounts { OnOk result (accounts_of stake.new ≡ without_dreps left.now (accounts_of stake.old)) }
    ensures in_order { OnOk result (IsMap credential_cmp (accounts_of stake.new)) }
    ensures room { OnOk result (HasRoom 0 stake.new) }
    ensures rest { OnOk result (KeepsOutputs stake.old stake.new) }
{
    if left.is_empty() {
        return Ok(());
    }
    stake.clear_dreps(left)?;
    // its accounts are in order, and there is room
    let _kept = stake.book();
    Ok(())
}

/// Puts these registrations without what ended later; none raises a balance.
fn put_accounts(
    stake: &mut StakeBook,
    changed: BTreeMap<Credential, Written>,
    left: &BTreeMap<Credential, u64>,
) -> Result<(), NoMemory>
    requires in_order { IsMap credential_cmp (accounts_of stake.old) }
    requires room { HasRoom 0 stake.old }
    requires lower { NoneRises (standing_of left.now.entries changed.entries) (accounts_of stake.old) }
    ensures accounts { OnOk result (accounts_of stake.new ≡
        with_registrations (standing_of left.now.entries changed.entries) (accounts_of stake.old)) }
    ensures rest { OnOk result (KeepsOutputs stake.old stake.new) }
{
    for (credential, written) in changed {
        stake.set_account(credential, standing(left, written.number, written.to))?;
    }
    Ok(())
}
