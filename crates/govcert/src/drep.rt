ghost use Rattle.std.specs.Prelude.{◌≡◌, ◌+◌, ◌<◌, ◌≤◌, ◌^◌, None, OnOk, map};
ghost use Rattle.book_records.specs.declared.DrepState.{DrepState};
ghost use Rattle.gov_ids.specs.Orders.{credential_cmp};
ghost use Rattle.govcert.specs.Certs.{cert_of_drep};
ghost use Rattle.ledger_model.specs.CertRules.{cert_checks, is_not};
ghost use Rattle.ledger_model.specs.Changes.{changed_by, fresh_expiry, having_acted, new_drep};
ghost use Rattle.ledger_model.specs.Checks.{answer_of, at_place, first_among};
ghost use Rattle.ledger_model.specs.Draft.{draft_with};
ghost use Rattle.ledger_model.specs.Flows.{flows_of_cert, hand, sink, source, sum_at};
ghost use Rattle.live_ledger.specs.Drafts.{IsTimely};
ghost use Rattle.live_ledger.specs.Moved.{HasMoved, IsCertified};
ghost use Rattle.maps.specs.Maps.{IsMap, value_at};
ghost use Rattle.maps.specs.Words.{amount};
ghost use Rattle.rule_checks.specs.Answered.{IsAnswered};
ghost use Rattle.rule_checks.specs.Told.{told_with};
ghost use Rattle.tx_records.specs.declared.cert.Cert.TheVariants.{DrepReg, DrepUnreg, DrepUpdate};

use book_records::DrepState;
use gov_ids::Credential;
use live_ledger::Draft;
use no_memory::NoMemory;
use rule_checks::{Check, Told, answer_at, as_fault, first_of};
use tx_records::rules::{DEPOSIT_WRONG, DREP_REGISTERED, DREP_UNKNOWN, REFUND_WRONG};
use tx_records::{Rule, TxFault};

/// A certificate of a DRep. (GOVCERT of the formal specification)
#[derive(Clone, Copy)]
pub struct DrepCert {
    pub cred: Credential,
    pub act: DrepAct,
}

/// What a certificate asks of its DRep. Deposit and refund are in lovelace; one not stated is what
/// is due (own).
#[derive(Clone, Copy)]
pub enum DrepAct {
    /// It is registered.
    Register { deposit: Option<u64> },
    /// It leaves.
    End { refund: Option<u64> },
    /// It shows that it is active.
    Update,
}

/// Registers, ends or updates a DRep, as the certificate at this index says, or refuses with the
/// first rule that it breaks. (GOVCERT of the formal specification)
pub fn cert(d: &mut Draft, place: u32, c: &DrepCert) -> Result<(), TxFault>
    requires few { d.old.changes ≤ 2 ^ 31 }
    ensures rule { IsAnswered (first_among (map (at_place place) (cert_checks d.old.start d.old.ledger (cert_of_drep c.now)))) result }
    ensures ledger { OnOk result (d.new.ledger ≡ changed_by (cert_of_drep c.now) d.old.ledger) }
    ensures moved { OnOk result (HasMoved (flows_of_cert d.old.ledger (cert_of_drep c.now)) d.old d.new) }
    ensures start { d.new.start ≡ d.old.start }
    ensures few { d.new.changes ≤ d.old.changes + 1 }
{
    let found = d.drep(&c.cred);
    as_fault(answer_at(check(d, c, found), place as usize))?;
    change(d, c, found)?;
    Ok(())
}

/// Adds every rule that the certificate at this index breaks; one that breaks none changes the
/// draft as `cert` does, one that breaks a rule changes nothing. `NoMemory`: drop the draft. (Own)
pub fn tell_cert(d: &mut Draft, place: u32, c: &DrepCert, told: &mut Told) -> Result<(), NoMemory>
    requires few { d.old.changes ≤ 2 ^ 31 }
    ensures rules { OnOk result (told.new ≡
        told_with (map (at_place place) (cert_checks d.old.start d.old.ledger (cert_of_drep c.now))) told.old) }
    ensures ledger { OnOk result (d.new.ledger ≡ draft_with d.old.start d.old.ledger (cert_of_drep c.now)) }
    ensures start { d.new.start ≡ d.old.start }
    ensures few { d.new.changes ≤ d.old.changes + 1 }
{
    let found = d.drep(&c.cred);
    tell(d, place as usize, c, found, told)?;
    change_if_allowed(d, c, found)
}

/// What a certificate gives back, and what it pays, in lovelace, by the draft before it; also one
/// that breaks a rule.
pub fn moved_by(d: &Draft, c: &DrepCert) -> (u64, u64)
    ensures refund { result.0 ≡ sum_at sink hand (flows_of_cert d.now.ledger (cert_of_drep c.now)) }
    ensures deposit { result.1 ≡ sum_at source hand (flows_of_cert d.now.ledger (cert_of_drep c.now)) }
{
    match c.act {
        DrepAct::Register { .. } => (0, d.start().params().drep_deposit),
        DrepAct::End { .. } => (deposit_of(d.drep(&c.cred)), 0),
        DrepAct::Update => (0, 0),
    }
}

/// The first rule that it breaks, if any, without its index. The DRep was found so.
fn check(d: &Draft, c: &DrepCert, found: Option<DrepState>) -> Result<(), Rule>
    requires found { found ≡ value_at credential_cmp d.now.ledger.dreps c.now.cred }
    ensures { result ≡ answer_of (cert_checks d.now.start d.now.ledger (cert_of_drep c.now)) }
{
    match c.act {
        DrepAct::Register { deposit } => first_of(&registration_checks(d, c.cred, found, deposit)),
        DrepAct::End { refund } => first_of(&end_checks(d, c.cred, found, refund)),
        DrepAct::Update => first_of(&update_checks(d, c.cred, found)),
    }
}

/// Adds every rule that it breaks, at this index.
fn tell(
    d: &Draft,
    place: usize,
    c: &DrepCert,
    found: Option<DrepState>,
    told: &mut Told,
) -> Result<(), NoMemory>
    requires place { place < 2 ^ 32 }
    requires found { found ≡ value_at credential_cmp d.now.ledger.dreps c.now.cred }
    ensures { OnOk result (told.new ≡
        told_with (map (at_place place) (cert_checks d.now.start d.now.ledger (cert_of_drep c.now))) told.old) }
{
    match c.act {
        DrepAct::Register { deposit } => {
            told.add_at(place, &registration_checks(d, c.cred, found, deposit))
        }
        DrepAct::End { refund } => told.add_at(place, &end_checks(d, c.cred, found, refund)),
        DrepAct::Update => told.add_at(place, &update_checks(d, c.cred, found)),
    }
}

/// What it changes, if it breaks no rule.
fn change(d: &mut Draft, c: &DrepCert, found: Option<DrepState>) -> Result<(), NoMemory>
    requires few { d.old.changes < 2 ^ 32 }
    requires found { found ≡ value_at credential_cmp d.old.ledger.dreps c.now.cred }
    requires in_order { IsMap credential_cmp d.old.ledger.dreps }
    requires allowed { first_among (cert_checks d.old.start d.old.ledger (cert_of_drep c.now)) ≡ None }
    ensures ok { OnOk result (IsCertified (cert_of_drep c.now) d.old d.new) }
    ensures start { d.new.start ≡ d.old.start }
    ensures few { d.new.changes ≤ d.old.changes + 1 }
{
    match c.act {
        DrepAct::Register { .. } => {
            let registered = new_drep(d);
            // the new DRep was not registered
            d.change_drep(c.cred, None, Some(registered))?;
            Ok(())
        }
        DrepAct::End { .. } => {
            d.change_drep(c.cred, found, None)?;
            Ok(())
        }
        DrepAct::Update => act_found(d, c.cred, found),
    }
}

/// What it changes; nothing, if it breaks a rule.
fn change_if_allowed(d: &mut Draft, c: &DrepCert, found: Option<DrepState>) -> Result<(), NoMemory>
    requires few { d.old.changes < 2 ^ 32 }
    requires found { found ≡ value_at credential_cmp d.old.ledger.dreps c.now.cred }
    requires in_order { IsMap credential_cmp d.old.ledger.dreps }
    ensures ledger { OnOk result (d.new.ledger ≡ draft_with d.old.start d.old.ledger (cert_of_drep c.now)) }
    ensures start { d.new.start ≡ d.old.start }
    ensures few { d.new.changes ≤ d.old.changes + 1 }
{
    match check(d, c, found) {
        Ok(()) => change(d, c, found),
        Err(_) => Ok(()),
    }
}

/// The rules on the registration of a DRep.
fn registration_checks(
    d: &Draft,
    cred: Credential,
    found: Option<DrepState>,
    deposit: Option<u64>,
) -> [Check; 2]
    requires found { found ≡ value_at credential_cmp d.now.ledger.dreps cred }
    ensures { result ≡ cert_checks d.now.start d.now.ledger (DrepReg cred deposit) }
{
    let due = d.start().params().drep_deposit;
    [
        Check::keeping(DEPOSIT_WRONG, u128::from(due), is_not(due, deposit)),
        Check::plain(DREP_REGISTERED, found.is_some()),
    ]
}

/// A new DRep: the deposit that is due, in lovelace, and the expiry of one that acts now.
fn new_drep(d: &Draft) -> DrepState
    ensures value { result ≡ new_drep d.now.ledger }
    ensures timely { IsTimely d.now.ledger result }
{
    DrepState {
        deposit: d.start().params().drep_deposit,
        expiry: fresh_expiry(d),
    }
}

/// The rules on the end of a DRep. One that is not registered is unknown, whatever the refund.
fn end_checks(
    d: &Draft,
    cred: Credential,
    found: Option<DrepState>,
    refund: Option<u64>,
) -> [Check; 2]
    requires found { found ≡ value_at credential_cmp d.now.ledger.dreps cred }
    ensures { result ≡ cert_checks d.now.start d.now.ledger (DrepUnreg cred refund) }
{
    let deposit = deposit_of(found);
    let is_wrong = found.is_some() && is_not(deposit, refund);
    [
        Check::keeping(REFUND_WRONG, u128::from(deposit), is_wrong),
        Check::plain(DREP_UNKNOWN, found.is_none()),
    ]
}

/// The rule on an update of a DRep.
fn update_checks(d: &Draft, cred: Credential, found: Option<DrepState>) -> [Check; 1]
    requires found { found ≡ value_at credential_cmp d.now.ledger.dreps cred }
    ensures { result ≡ cert_checks d.now.start d.now.ledger (DrepUpdate cred) }
{
    [Check::plain(DREP_UNKNOWN, found.is_none())]
}

/// A DRep acts, if it is registered.
pub(crate) fn act(d: &mut Draft, cred: Credential) -> Result<(), NoMemory>
    requires few { d.old.changes < 2 ^ 32 }
    ensures ok { OnOk result (IsCertified (DrepUpdate cred) d.old d.new) }
    ensures start { d.new.start ≡ d.old.start }
    ensures few { d.new.changes ≤ d.old.changes + 1 }
{
    let found = d.drep(&cred);
    act_found(d, cred, found)
}

/// A DRep that was found so acts, if it is registered.
fn act_found(d: &mut Draft, cred: Credential, found: Option<DrepState>) -> Result<(), NoMemory>
    requires few { d.old.changes < 2 ^ 32 }
    requires found { found ≡ value_at credential_cmp d.old.ledger.dreps cred }
    requires in_order { IsMap credential_cmp d.old.ledger.dreps }
    ensures ok { OnOk result (IsCertified (DrepUpdate cred) d.old d.new) }
    ensures start { d.new.start ≡ d.old.start }
    ensures few { d.new.changes ≤ d.old.changes + 1 }
{
    match found {
        Some(registered) => {
            let acting = having_acted(d, registered);
            d.change_drep(cred, Some(registered), Some(acting))?;
            Ok(())
        }
        None => Ok(()),
    }
}

/// What is stored for a DRep that acts now.
fn having_acted(d: &Draft, registered: DrepState) -> DrepState
    ensures value { result ≡ having_acted d.now.ledger registered }
    ensures timely { IsTimely d.now.ledger result }
{
    DrepState {
        expiry: fresh_expiry(d),
        ..registered
    }
}

/// The expiry, an epoch, of a DRep that acts now, before the dormant epochs are added.
fn fresh_expiry(d: &Draft) -> u64
    ensures value { result ≡ fresh_expiry d.now.ledger }
    ensures timely { result + d.now.ledger.dormant ≤ 2 ^ 62 + 2 ^ 32 + d.now.ledger.epoch }
{
    let dormant = d.dormant();
    let s = d.start();
    s.epoch() + u64::from(s.params().drep_activity) - dormant
}

/// The deposit that is stored for a DRep, in lovelace, or 0 where it is not registered.
fn deposit_of(drep: Option<DrepState>) -> u64
    ensures { result ≡ amount (λ (s : DrepState). s.deposit) drep }
{
    drep.map_or(0, |registered| registered.deposit)
}

/// Whether an amount of lovelace is stated that is not the one due.
fn is_not(due: u64, stated: Option<u64>) -> bool
    ensures { result ≡ is_not due stated }
{
    stated.is_some_and(|amount| amount != due)
}
