ghost use Rattle.std.specs.Prelude.{◌≡◌, ◌+◌, ◌≤◌, ◌<◌, ◌^◌, ◌&&◌, not, true, is_none, OnOk, length};
ghost use Rattle.book_records.specs.declared.Registered.{Registered};
ghost use Rattle.cert_deleg.specs.Emptied.{emptied_all, emptied_at};
ghost use Rattle.ledger_model.specs.CertRules.{withdrawal_checks};
ghost use Rattle.ledger_model.specs.Checks.{answer_of, per_place};
ghost use Rattle.ledger_model.specs.UtxoRules.{is_script};
ghost use Rattle.maps.specs.Words.{some_and};
ghost use Rattle.rule_checks.specs.Told.{told_with};
ghost use Rattle.tx_records.specs.TxLimits.{is_within_limits};

use crate::stored::rewards_of;
use book_records::Registered;
use gov_ids::{Account, CredKind, Credential};
use live_ledger::{Draft, LiveLedger};
use no_memory::NoMemory;
use rule_checks::{Check, ItemRules, Told, check_each, first_of, tell_each};
use tx_records::rules::{
    WITHDRAWAL_NO_ACCOUNT, WITHDRAWAL_NOT_DELEGATED, WITHDRAWAL_NOT_WHOLE, WITHDRAWAL_WRONG_NETWORK,
};
use tx_records::{Rule, Tx};

/// The rules on each withdrawal.
#[derive(Drop)]
struct Withdrawals<'a> {
    s: &'a LiveLedger,
}

impl<'a> ItemRules for Withdrawals<'a> {
    ghost use Rattle.ledger_model.specs.CertRules.{withdrawal_checks};

    type Item = (Account, u64);

    ghost checks = { λ r i item. withdrawal_checks r.s.now.ledger i item };

    fn check(&self, _place: usize, item: &(Account, u64)) -> Result<(), Rule> {
        first_of(&withdrawal_checks(self.s, item))
    }

    fn tell(&self, place: usize, item: &(Account, u64), told: &mut Told) -> Result<(), NoMemory> {
        told.add_at(place, &withdrawal_checks(self.s, item))
    }
}

/// The rules on a withdrawal, whatever its place.
fn withdrawal_checks(s: &LiveLedger, withdrawal: &(Account, u64)) -> [Check; 4]
    ensures { result ≡ withdrawal_checks s.now.ledger 0 withdrawal.now }
{
    let (account, lovelace) = *withdrawal;
    let registered = s.stake().account(&account.cred);
    let rewards = rewards_of(registered);
    let is_undelegated = is_undelegated(&account.cred, registered);
    [
        Check::plain(WITHDRAWAL_WRONG_NETWORK, account.network != s.network()),
        Check::plain(WITHDRAWAL_NO_ACCOUNT, registered.is_none()),
        Check::plain(WITHDRAWAL_NOT_DELEGATED, is_undelegated),
        Check::keeping(
            WITHDRAWAL_NOT_WHOLE,
            u128::from(rewards),
            lovelace != rewards,
        ),
    ]
}

/// Whether a credential is a key that is registered, and delegates its vote to no DRep.
fn is_undelegated(c: &Credential, account: Option<Registered>) -> bool
    ensures { result ≡ (not (is_script c.now.kind) && some_and (λ (r : Registered). is_none r.drep) account) }
{
    matches!(c.kind, CredKind::Key) && account.is_some_and(|registered| registered.drep.is_none())
}

/// The first broken rule on the withdrawals, by the ledger before the transaction.
pub fn check_withdrawals(s: &LiveLedger, tx: &Tx) -> Result<(), Rule>
    requires { is_within_limits tx.now ≡ true }
    ensures { result ≡ answer_of (per_place (withdrawal_checks s.now.ledger) tx.now.withdrawals) }
{
    check_each(&Withdrawals { s }, tx.withdrawals.as_slice())
}

/// Adds every broken rule on the withdrawals, by the ledger before the transaction.
pub fn tell_withdrawals(s: &LiveLedger, tx: &Tx, told: &mut Told) -> Result<(), NoMemory>
    requires { is_within_limits tx.now ≡ true }
    ensures { OnOk result (told.new ≡ told_with (per_place (withdrawal_checks s.now.ledger) tx.now.withdrawals) told.old) }
{
    tell_each(&Withdrawals { s }, tx.withdrawals.as_slice(), told)
}

/// Each account of these withdrawals that is registered gives its balance.
pub fn empty_accounts(d: &mut Draft, withdrawals: &[(Account, u64)]) -> Result<(), NoMemory>
    requires few { d.old.changes + length withdrawals.now < 2 ^ 32 }
    ensures ledger { OnOk result (d.new.ledger ≡ emptied_all withdrawals.now d.old.ledger) }
    ensures moved { (d.new.refunds ≡ d.old.refunds) × (d.new.deposits ≡ d.old.deposits) }
    ensures start { d.new.start ≡ d.old.start }
    ensures few { d.new.changes ≤ d.old.changes + length withdrawals.now }
{
    for (account, _) in withdrawals {
        empty_account(d, account.cred)?;
    }
    Ok(())
}

/// An account gives its balance, if it is registered.
fn empty_account(d: &mut Draft, c: Credential) -> Result<(), NoMemory>
    requires few { d.old.changes < 2 ^ 32 }
    ensures ledger { OnOk result (d.new.ledger ≡ emptied_at c d.old.ledger) }
    ensures moved { (d.new.refunds ≡ d.old.refunds) × (d.new.deposits ≡ d.old.deposits) }
    ensures start { d.new.start ≡ d.old.start }
    ensures few { d.new.changes ≤ d.old.changes + 1 }
{
    match d.account(&c) {
        Some(registered) => {
            let emptied = Registered {
                rewards: 0,
                ..registered
            };
            d.change_account(c, Some(registered), Some(emptied))?;
            Ok(())
        }
        None => Ok(()),
    }
}
