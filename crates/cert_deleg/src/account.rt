ghost use Rattle.std.specs.Prelude.{◌≡◌, ◌+◌, ◌<◌, ◌≤◌, ◌^◌, None, OnOk, OnErr, map};
ghost use Rattle.cert_deleg.specs.Certs.{cert_of_account};
ghost use Rattle.gov_ids.specs.Orders.{credential_cmp};
ghost use Rattle.ledger_model.specs.CertRules.{cert_checks, is_not, is_unknown_drep, is_unknown_pool};
ghost use Rattle.ledger_model.specs.Changes.{changed_by, new_account};
ghost use Rattle.ledger_model.specs.Checks.{answer_of, at_place, first_among};
ghost use Rattle.ledger_model.specs.Draft.{draft_with};
ghost use Rattle.ledger_model.specs.Flows.{flows_of_cert, hand, sink, source, sum_at};
ghost use Rattle.ledger_model.specs.Ledger.{account_at};
ghost use Rattle.live_ledger.specs.Moved.{HasMoved, IsCertified};
ghost use Rattle.maps.specs.Maps.{IsMap};
ghost use Rattle.rule_checks.specs.Answered.{IsAnswered};
ghost use Rattle.rule_checks.specs.Told.{told_with};
ghost use Rattle.tx_records.specs.declared.cert.Cert.TheVariants.{AccountReg, AccountUnreg, Delegate};

use crate::stored::{deposit_of, rewards_of};
use book_records::Registered;
use gov_ids::{Credential, Drep, PoolId};
use live_ledger::Draft;
use no_memory::NoMemory;
use rule_checks::{Check, Told, answer_at, as_fault, first_of};
use tx_records::rules::{
    ACCOUNT_REGISTERED, ACCOUNT_UNKNOWN, BALANCE_NOT_ZERO, DEPOSIT_WRONG, DREP_UNKNOWN,
    POOL_UNKNOWN, REFUND_WRONG,
};
use tx_records::{Rule, TxFault};

/// A certificate of an account. (DELEG of the formal specification)
#[derive(Clone, Copy)]
pub struct AccountCert {
    pub cred: Credential,
    pub act: AccountAct,
}

/// What a certificate asks of its account. Deposit and refund are in lovelace; one not stated is
/// what is due (own).
#[derive(Clone, Copy)]
pub enum AccountAct {
    /// It is registered and may delegate at once.
    Register {
        deposit: Option<u64>,
        pool: Option<PoolId>,
        drep: Option<Drep>,
    },
    /// It leaves.
    End {
        refund: Option<u64>,
    },
    /// It delegates its stake, its vote, or both.
    Delegate {
        pool: Option<PoolId>,
        drep: Option<Drep>,
    },
}

/// Registers, ends or delegates an account, as the certificate at this index says, or refuses with
/// the first rule that it breaks. (DELEG of the formal specification)
pub fn cert(d: &mut Draft, place: u32, c: &AccountCert) -> Result<(), TxFault>
    requires few { d.old.changes ≤ 2 ^ 31 }
    ensures rule { IsAnswered (first_among (map (at_place place) (cert_checks d.old.start d.old.ledger (cert_of_account c.now)))) result }
    ensures ledger { OnOk result (d.new.ledger ≡ changed_by (cert_of_account c.now) d.old.ledger) }
    ensures moved { OnOk result (HasMoved (flows_of_cert d.old.ledger (cert_of_account c.now)) d.old d.new) }
    ensures start { d.new.start ≡ d.old.start }
    ensures few { d.new.changes ≤ d.old.changes + 1 }
{
    let found = d.account(&c.cred);
    as_fault(answer_at(check(d, c, found), place as usize))?;
    change(d, c, found)?;
    Ok(())
}

/// Adds every rule that the certificate at this index breaks; one that breaks none changes the
/// draft as `cert` does, one that breaks a rule changes nothing. `NoMemory`: drop the draft.
pub fn tell_cert(
    d: &mut Draft,
    place: u32,
    c: &AccountCert,
    told: &mut Told,
) -> Result<(), NoMemory>
    requires few { d.old.changes ≤ 2 ^ 31 }
    ensures rules { OnOk result (told.new ≡
        told_with (map (at_place place) (cert_checks d.old.start d.old.ledger (cert_of_account c.now))) told.old) }
    ensures ledger { OnOk result (d.new.ledger ≡ draft_with d.old.start d.old.ledger (cert_of_account c.now)) }
    ensures start { d.new.start ≡ d.old.start }
    ensures few { d.new.changes ≤ d.old.changes + 1 }
{
    let found = d.account(&c.cred);
    tell(d, place as usize, c, found, told)?;
    change_if_allowed(d, c, found)
}

/// What a certificate gives back, and what it pays, in lovelace, by the draft before it; also one
/// that breaks a rule.
pub fn moved_by(d: &Draft, c: &AccountCert) -> (u64, u64)
    ensures refund { result.0 ≡ sum_at sink hand (flows_of_cert d.now.ledger (cert_of_account c.now)) }
    ensures deposit { result.1 ≡ sum_at source hand (flows_of_cert d.now.ledger (cert_of_account c.now)) }
{
    match c.act {
        AccountAct::Register { .. } => (0, d.start().params().key_deposit),
        AccountAct::End { .. } => (deposit_of(d.account(&c.cred)), 0),
        AccountAct::Delegate { .. } => (0, 0),
    }
}

/// The first rule that it breaks, if any, without its index. The account was found so.
fn check(d: &Draft, c: &AccountCert, found: Option<Registered>) -> Result<(), Rule>
    requires found { found ≡ account_at d.now.ledger c.now.cred }
    ensures { result ≡ answer_of (cert_checks d.now.start d.now.ledger (cert_of_account c.now)) }
{
    match c.act {
        AccountAct::Register {
            deposit,
            pool,
            drep,
        } => first_of(&registration_checks(d, c.cred, found, deposit, pool, drep)),
        AccountAct::End { refund } => first_of(&end_checks(d, c.cred, found, refund)),
        AccountAct::Delegate { pool, drep } => {
            first_of(&delegation_checks(d, c.cred, found, pool, drep))
        }
    }
}

/// Adds every rule that it breaks, at this index.
fn tell(
    d: &Draft,
    place: usize,
    c: &AccountCert,
    found: Option<Registered>,
    told: &mut Told,
) -> Result<(), NoMemory>
    requires place { place < 2 ^ 32 }
    requires found { found ≡ account_at d.now.ledger c.now.cred }
    ensures { OnOk result (told.new ≡
        told_with (map (at_place place) (cert_checks d.now.start d.now.ledger (cert_of_account c.now))) told.old) }
{
    match c.act {
        AccountAct::Register {
            deposit,
            pool,
            drep,
        } => told.add_at(
            place,
            &registration_checks(d, c.cred, found, deposit, pool, drep),
        ),
        AccountAct::End { refund } => told.add_at(place, &end_checks(d, c.cred, found, refund)),
        AccountAct::Delegate { pool, drep } => {
            told.add_at(place, &delegation_checks(d, c.cred, found, pool, drep))
        }
    }
}

/// What it changes, if it breaks no rule.
fn change(d: &mut Draft, c: &AccountCert, found: Option<Registered>) -> Result<(), NoMemory>
    requires few { d.old.changes < 2 ^ 32 }
    requires found { found ≡ account_at d.old.ledger c.now.cred }
    requires in_order { IsMap credential_cmp d.old.ledger.accounts }
    requires allowed { first_among (cert_checks d.old.start d.old.ledger (cert_of_account c.now)) ≡ None }
    ensures ok { OnOk result (IsCertified (cert_of_account c.now) d.old d.new) }
    ensures err { OnErr result (d.new ≡ d.old) }
{
    match c.act {
        AccountAct::Register { pool, drep, .. } => {
            let registered = new_account(d, pool, drep);
            // the new account was not registered
            d.change_account(c.cred, None, Some(registered))?;
            Ok(())
        }
        AccountAct::End { .. } => {
            d.change_account(c.cred, found, None)?;
            Ok(())
        }
        AccountAct::Delegate { pool, drep } => delegate(d, c.cred, found, pool, drep),
    }
}

/// What it changes; nothing, if it breaks a rule.
fn change_if_allowed(
    d: &mut Draft,
    c: &AccountCert,
    found: Option<Registered>,
) -> Result<(), NoMemory>
    requires few { d.old.changes < 2 ^ 32 }
    requires found { found ≡ account_at d.old.ledger c.now.cred }
    requires in_order { IsMap credential_cmp d.old.ledger.accounts }
    ensures ledger { OnOk result (d.new.ledger ≡ draft_with d.old.start d.old.ledger (cert_of_account c.now)) }
    ensures start { d.new.start ≡ d.old.start }
    ensures few { d.new.changes ≤ d.old.changes + 1 }
{
    match check(d, c, found) {
        Ok(()) => change(d, c, found),
        Err(_) => Ok(()),
    }
}

/// The rules on the registration of an account.
fn registration_checks(
    d: &Draft,
    cred: Credential,
    found: Option<Registered>,
    deposit: Option<u64>,
    pool: Option<PoolId>,
    drep: Option<Drep>,
) -> [Check; 4]
    requires found { found ≡ account_at d.now.ledger cred }
    ensures { result ≡ cert_checks d.now.start d.now.ledger (AccountReg cred deposit pool drep) }
{
    let due = d.start().params().key_deposit;
    [
        Check::plain(ACCOUNT_REGISTERED, found.is_some()),
        Check::keeping(DEPOSIT_WRONG, u128::from(due), is_not(due, deposit)),
        Check::plain(POOL_UNKNOWN, is_unknown_pool(d, pool)),
        Check::plain(DREP_UNKNOWN, is_unknown_drep(d, drep)),
    ]
}

/// What is stored for a new account: the deposit that is due, and no balance.
fn new_account(d: &Draft, pool: Option<PoolId>, drep: Option<Drep>) -> Registered
    ensures { result ≡ new_account d.now.ledger pool drep }
{
    Registered {
        deposit: d.start().params().key_deposit,
        rewards: 0,
        pool,
        drep,
    }
}

/// The rules on the end of an account.
fn end_checks(
    d: &Draft,
    cred: Credential,
    found: Option<Registered>,
    refund: Option<u64>,
) -> [Check; 3]
    requires found { found ≡ account_at d.now.ledger cred }
    ensures { result ≡ cert_checks d.now.start d.now.ledger (AccountUnreg cred refund) }
{
    let deposit = deposit_of(found);
    let rewards = rewards_of(found);
    let is_wrong = found.is_some() && is_not(deposit, refund);
    [
        Check::plain(ACCOUNT_UNKNOWN, found.is_none()),
        Check::keeping(REFUND_WRONG, u128::from(deposit), is_wrong),
        Check::keeping(BALANCE_NOT_ZERO, u128::from(rewards), rewards != 0),
    ]
}

/// The rules on a delegation.
fn delegation_checks(
    d: &Draft,
    cred: Credential,
    found: Option<Registered>,
    pool: Option<PoolId>,
    drep: Option<Drep>,
) -> [Check; 3]
    requires found { found ≡ account_at d.now.ledger cred }
    ensures { result ≡ cert_checks d.now.start d.now.ledger (Delegate cred pool drep) }
{
    [
        Check::plain(ACCOUNT_UNKNOWN, found.is_none()),
        Check::plain(POOL_UNKNOWN, is_unknown_pool(d, pool)),
        Check::plain(DREP_UNKNOWN, is_unknown_drep(d, drep)),
    ]
}

/// An account delegates its stake, its vote or both; what is not named stays.
fn delegate(
    d: &mut Draft,
    cred: Credential,
    found: Option<Registered>,
    pool: Option<PoolId>,
    drep: Option<Drep>,
) -> Result<(), NoMemory>
    requires few { d.old.changes < 2 ^ 32 }
    requires found { found ≡ account_at d.old.ledger cred }
    requires in_order { IsMap credential_cmp d.old.ledger.accounts }
    ensures ok { OnOk result (IsCertified (Delegate cred pool drep) d.old d.new) }
    ensures err { OnErr result (d.new ≡ d.old) }
{
    match found {
        Some(registered) => {
            let delegating = Registered {
                pool: pool.or(registered.pool),
                drep: drep.or(registered.drep),
                ..registered
            };
            d.change_account(cred, Some(registered), Some(delegating))?;
            Ok(())
        }
        None => Ok(()),
    }
}

/// Whether an amount of lovelace is stated that is not the one due.
fn is_not(due: u64, stated: Option<u64>) -> bool
    ensures { result ≡ is_not due stated }
{
    stated.is_some_and(|amount| amount != due)
}

/// Whether a pool is named that is not registered.
fn is_unknown_pool(d: &Draft, pool: Option<PoolId>) -> bool
    ensures { result ≡ is_unknown_pool d.now.ledger pool }
{
    match pool {
        Some(named) => d.pool(&named).is_none(),
        None => false,
    }
}

/// Whether a DRep is named by a credential that is not registered as one.
fn is_unknown_drep(d: &Draft, drep: Option<Drep>) -> bool
    ensures { result ≡ is_unknown_drep d.now.ledger drep }
{
    match drep {
        Some(Drep::Registered(named)) => d.drep(&named).is_none(),
        Some(Drep::Abstain | Drep::NoConfidence) | None => false,
    }
}
