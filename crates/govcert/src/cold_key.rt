ghost use Rattle.std.specs.Prelude.{◌≡◌, ◌+◌, ◌<◌, ◌≤◌, ◌^◌, OnOk, map};
ghost use Rattle.govcert.specs.Certs.{cert_of_cold_key};
ghost use Rattle.ledger_model.specs.CertRules.{cert_checks, is_cold_key, is_resigned};
ghost use Rattle.ledger_model.specs.Changes.{changed_by};
ghost use Rattle.ledger_model.specs.Checks.{at_place, first_among};
ghost use Rattle.ledger_model.specs.Draft.{draft_with};
ghost use Rattle.ledger_model.specs.Flows.{flows_of_cert};
ghost use Rattle.live_ledger.specs.Moved.{HasMoved, IsCertified};
ghost use Rattle.rule_checks.specs.Answered.{IsAnswered};
ghost use Rattle.rule_checks.specs.Told.{told_with};

use gov_actions::HotState;
use gov_ids::Credential;
use live_ledger::{Draft, LiveLedger};
use no_memory::NoMemory;
use rule_checks::{Check, Told, answer_at, as_fault, first_of};
use tx_records::TxFault;
use tx_records::rules::{COLD_KEY_RESIGNED, COLD_KEY_UNKNOWN};

/// A certificate of a cold key, which gets a hot key instead of an earlier one, or resigns. It
/// moves no lovelace. (GOVCERT of the formal specification)
#[derive(Clone, Copy)]
pub struct ColdKeyCert {
    pub cold: Credential,
    pub to: HotState,
}

/// Authorizes a hot key or resigns, as the certificate at this index says, or refuses with the
/// first rule that it breaks. (GOVCERT of the formal specification)
pub fn cert(d: &mut Draft, place: u32, c: &ColdKeyCert) -> Result<(), TxFault>
    requires few { d.old.changes ≤ 2 ^ 31 }
    ensures rule { IsAnswered (first_among (map (at_place place) (cert_checks d.old.start d.old.ledger (cert_of_cold_key c.now)))) result }
    ensures ledger { OnOk result (d.new.ledger ≡ changed_by (cert_of_cold_key c.now) d.old.ledger) }
    ensures moved { OnOk result (HasMoved (flows_of_cert d.old.ledger (cert_of_cold_key c.now)) d.old d.new) }
    ensures start { d.new.start ≡ d.old.start }
    ensures few { d.new.changes ≤ d.old.changes + 1 }
{
    as_fault(answer_at(first_of(&checks(d, c)), place as usize))?;
    change(d, c)?;
    Ok(())
}

/// Adds every rule that the certificate at this index breaks; one that breaks none changes the
/// draft as `cert` does, one that breaks a rule changes nothing. `NoMemory`: drop the draft. (Own)
pub fn tell_cert(
    d: &mut Draft,
    place: u32,
    c: &ColdKeyCert,
    told: &mut Told,
) -> Result<(), NoMemory>
    requires few { d.old.changes ≤ 2 ^ 31 }
    ensures rules { OnOk result (told.new ≡
        told_with (map (at_place place) (cert_checks d.old.start d.old.ledger (cert_of_cold_key c.now))) told.old) }
    ensures ledger { OnOk result (d.new.ledger ≡ draft_with d.old.start d.old.ledger (cert_of_cold_key c.now)) }
    ensures start { d.new.start ≡ d.old.start }
    ensures few { d.new.changes ≤ d.old.changes + 1 }
{
    told.add_at(place as usize, &checks(d, c))?;
    change_if_allowed(d, c)
}

/// The rules: the ledger before the transaction knows the cold key, and it has not resigned.
fn checks(d: &Draft, c: &ColdKeyCert) -> [Check; 2]
    ensures { result ≡ cert_checks d.now.start d.now.ledger (cert_of_cold_key c.now) }
{
    [
        Check::plain(COLD_KEY_UNKNOWN, !is_cold_key(d.start(), &c.cold)),
        Check::plain(COLD_KEY_RESIGNED, is_resigned(d.hot(&c.cold))),
    ]
}

/// What it changes, whether it breaks a rule or not.
fn change(d: &mut Draft, c: &ColdKeyCert) -> Result<(), NoMemory>
    requires few { d.old.changes < 2 ^ 32 }
    ensures ok { OnOk result (IsCertified (cert_of_cold_key c.now) d.old d.new) }
    ensures start { d.new.start ≡ d.old.start }
    ensures few { d.new.changes ≤ d.old.changes + 1 }
{
    d.set_hot(c.cold, c.to)?;
    Ok(())
}

/// What it changes; nothing, if it breaks a rule.
fn change_if_allowed(d: &mut Draft, c: &ColdKeyCert) -> Result<(), NoMemory>
    requires few { d.old.changes < 2 ^ 32 }
    ensures ledger { OnOk result (d.new.ledger ≡ draft_with d.old.start d.old.ledger (cert_of_cold_key c.now)) }
    ensures start { d.new.start ≡ d.old.start }
    ensures few { d.new.changes ≤ d.old.changes + 1 }
{
    match first_of(&checks(d, c)) {
        Ok(()) => change(d, c),
        Err(_) => Ok(()),
    }
}

/// Whether what a cold key has is its resignation.
fn is_resigned(s: Option<HotState>) -> bool
    ensures { result ≡ is_resigned s }
{
    matches!(s, Some(HotState::Resigned))
}

/// Whether a credential is a committee member, or a live proposal adds it. It scans neither.
fn is_cold_key(s: &LiveLedger, cold: &Credential) -> bool
    ensures { result ≡ is_cold_key s.now.ledger cold.now }
{
    s.is_member(cold) || s.is_proposed(cold)
}
