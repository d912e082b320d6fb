ghost use Rattle.std.specs.Prelude.{◌≡◌, ◌+◌, ◌<◌, ◌≤◌, ◌^◌, true, map, IfOk, OnOk};
ghost use Rattle.cert_deleg.specs.of_live_ledger.Drafts.{draft_at};
ghost use Rattle.ledger_model.specs.Broken.{body_checks, broken_rules, tx_checks};
ghost use Rattle.ledger_model.specs.CertRules.{cert_checks};
ghost use Rattle.ledger_model.specs.Checks.{at_place, per_place};
ghost use Rattle.ledger_model.specs.Draft.{draft_after, draft_with, last_draft};
ghost use Rattle.ledger_model.specs.Flows.{flows_of_cert, flows_of_certs, hand, sink, source, sum_at};
ghost use Rattle.ledger_model.specs.UtxoRules.{unless_failed};
ghost use Rattle.rule_checks.specs.Told.{told_with};
ghost use Rattle.tx_records.specs.TxLimits.{is_within_limits};
ghost use Rattle.tx_rule.specs.Drafted.{told_in_draft};
ghost use Rattle.utxo_rules.specs.Spent.{IsSpent};

use crate::part::{CertPart, part_of};
use cert_deleg::of_live_ledger::{Draft, LiveLedger};
use cert_deleg::{account, empty, pool, tell_withdrawals};
use govcert::{cold_key, drep, refresh};
use ledger_state::LedgerState;
use no_memory::NoMemory;
use rule_checks::Told;
use std::alloc::Global;
use tx_records::{Cert, Rule, Scripts, Tx};
use utxo_rules::{Spent, tell_balance, tell_spent};

/// Every rule that a transaction breaks, in the order of the rules, where `judge` gives the first;
/// none if and only if it is accepted. A certificate that breaks a rule changes nothing for those
/// behind it, but what it would pay or give back counts in the balance.
/// (UTXO, CERTS and GOV of the formal specification; the order and the list are own)
pub fn all_broken(alloc: Global, s: &LedgerState, tx: &Tx) -> Result<Vec<Rule>, NoMemory>
    requires within { is_within_limits tx.now ≡ true }
    ensures { IfOk result (λ rules. rules.items ≡ broken_rules s.now.ledger tx.now) }
{
    let mut told = Told::new(alloc);
    match tell_broken(alloc, s, tx, &mut told) {
        Ok(()) => Ok(told.into_rules()),
        Err(error) => {
            drop(told);
            Err(error)
        }
    }
}

/// Adds every rule that a transaction breaks, in order.
/// (UTXO, CERTS and GOV of the formal specification; the order is own)
pub fn tell_broken(alloc: Global, s: &LedgerState, tx: &Tx, told: &mut Told) -> Result<(), NoMemory>
    requires within { is_within_limits tx.now ≡ true }
    ensures { OnOk result (told.new ≡ told_with (tx_checks s.now.ledger tx.now) told.old) }
{
    let spent = tell_spent(alloc, s.live(), tx, told)?;
    tell_body(alloc, s.live(), tx, spent, told)
}

/// Adds the rules of its body that it breaks; one whose scripts failed is exempt.
fn tell_body(
    alloc: Global,
    s: &LiveLedger,
    tx: &Tx,
    spent: Spent,
    told: &mut Told,
) -> Result<(), NoMemory>
    requires within { is_within_limits tx.now ≡ true }
    requires spent { IsSpent s.now.ledger tx.now.inputs spent }
    ensures { OnOk result
        (told.new ≡ told_with (unless_failed tx.now.scripts (body_checks s.now.ledger tx.now)) told.old) }
{
    match tx.scripts {
        Scripts::Failed => Ok(()),
        Scripts::Absent | Scripts::Passed => tell_passed(alloc, s, tx, spent, told),
    }
}

/// Adds the broken rules on withdrawals, certificates, proposals, votes and the balance.
fn tell_passed(
    alloc: Global,
    s: &LiveLedger,
    tx: &Tx,
    spent: Spent,
    told: &mut Told,
) -> Result<(), NoMemory>
    requires within { is_within_limits tx.now ≡ true }
    requires spent { IsSpent s.now.ledger tx.now.inputs spent }
    ensures { OnOk result (told.new ≡ told_with (body_checks s.now.ledger tx.now) told.old) }
{
    tell_withdrawals(s, tx, told)?;
    let mut draft = Draft::new(alloc, s);
    let ended = tell_drafted(alloc, &mut draft, tx, spent, told);
    drop(draft);
    ended
}

/// Makes the draft of a transaction, and adds the broken rules that read it.
fn tell_drafted(
    alloc: Global,
    draft: &mut Draft,
    tx: &Tx,
    spent: Spent,
    told: &mut Told,
) -> Result<(), NoMemory>
    requires within { is_within_limits tx.now ≡ true }
    requires fresh { draft.old ≡ draft_at draft.old.start }
    requires spent { IsSpent draft.old.start tx.now.inputs spent }
    ensures { OnOk result (told.new ≡ told_with (told_in_draft draft.old.start tx.now) told.old) }
{
    empty(draft, tx)?;
    refresh(draft, tx)?;
    let moved = tell_certs(draft, tx, told)?;
    proposal_rules::tell(draft, tx, told)?;
    vote_rules::tell(draft, tx, told)?;
    tell_balance(alloc, draft.start(), tx, spent, moved, told)
}

/// Applies the certificates that break no rule to the draft, adds the rules that the others break,
/// and returns what all of them give back and pay, in lovelace.
fn tell_certs(draft: &mut Draft, tx: &Tx, told: &mut Told) -> Result<(u128, u128), NoMemory>
    requires within { is_within_limits tx.now ≡ true }
    requires begun { draft.old.ledger ≡ draft_after draft.old.start tx.now 0 }
    requires few { draft.old.changes ≤ 2 ^ 30 }
    ensures rules { OnOk result (told.new ≡ told_with (per_place
        (λ k c. cert_checks draft.old.start (draft_after draft.old.start tx.now k) c) tx.now.certs) told.old) }
    ensures ledger { OnOk result (draft.new.ledger ≡ last_draft draft.old.start tx.now) }
    ensures start { draft.new.start ≡ draft.old.start }
    ensures refunds { IfOk result (λ moved. moved.0 ≡ sum_at sink hand (flows_of_certs draft.old.start tx.now)) }
    ensures deposits { IfOk result (λ moved. moved.1 ≡ sum_at source hand (flows_of_certs draft.old.start tx.now)) }
    ensures fits { IfOk result (λ moved. (moved.0 < 2 ^ 96) × (moved.1 < 2 ^ 96)) }
{
    let mut refunds = 0;
    let mut deposits = 0;
    let certs = tx.certs.as_slice();
    for (place, c) in certs.iter().enumerate() {
        let (refund, deposit) = moved_by(draft, c);
        refunds += u128::from(refund);
        deposits += u128::from(deposit);
        tell_cert(draft, place as u32, c, told)?;
    }
    Ok((refunds, deposits))
}

/// What a certificate gives back and pays, in lovelace, whether it breaks a rule or not.
fn moved_by(draft: &Draft, c: &Cert) -> (u64, u64)
    ensures refund { result.0 ≡ sum_at sink hand (flows_of_cert draft.now.ledger c.now) }
    ensures deposit { result.1 ≡ sum_at source hand (flows_of_cert draft.now.ledger c.now) }
{
    match part_of(c) {
        CertPart::Account(said) => account::moved_by(draft, &said),
        CertPart::Pool(said) => pool::moved_by(draft, &said),
        CertPart::Drep(said) => drep::moved_by(draft, &said),
        CertPart::ColdKey(_) => (0, 0),
    }
}

/// Applies a certificate to the draft if it breaks no rule, and adds those that it breaks.
fn tell_cert(draft: &mut Draft, place: u32, c: &Cert, told: &mut Told) -> Result<(), NoMemory>
    requires few { draft.old.changes ≤ 2 ^ 31 }
    ensures rules { OnOk result (told.new ≡
        told_with (map (at_place place) (cert_checks draft.old.start draft.old.ledger c.now)) told.old) }
    ensures ledger { OnOk result (draft.new.ledger ≡ draft_with draft.old.start draft.old.ledger c.now) }
    ensures start { draft.new.start ≡ draft.old.start }
    ensures few { draft.new.changes ≤ draft.old.changes + 1 }
{
    match part_of(c) {
        CertPart::Account(said) => account::tell_cert(draft, place, &said, told),
        CertPart::Pool(said) => pool::tell_cert(draft, place, &said, told),
        CertPart::Drep(said) => drep::tell_cert(draft, place, &said, told),
        CertPart::ColdKey(said) => cold_key::tell_cert(draft, place, &said, told),
    }
}
