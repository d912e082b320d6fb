//! A transaction is judged by all rules, and applied where it breaks none.
#![tactic(auto)]

ghost use Rattle.std.specs.Prelude.{◌≡◌, None, true, IfOk, OnOk};
ghost use Rattle.ledger_model.specs.Broken.{body_checks, first_broken};
ghost use Rattle.ledger_model.specs.Checks.{first_among};
ghost use Rattle.ledger_model.specs.Draft.{last_draft};
ghost use Rattle.ledger_model.specs.Transaction.{accepted_as, ledger_after_tx, tx_step};
ghost use Rattle.ledger_model.specs.UtxoRules.{unless_failed, utxo_checks};
ghost use Rattle.cert_deleg.specs.of_live_ledger.Drafts.{draft_at, draft_of};
ghost use Rattle.rule_checks.specs.Answered.{IsAnswered};
ghost use Rattle.run_model.specs.World.{on_ledger};
ghost use Rattle.tx_records.specs.TxLimits.{is_within_limits};
ghost use Rattle.tx_rule.specs.Judged.{IsJudged};
ghost use Rattle.utxo_rules.specs.Spent.{IsSpent};

mod broken;
mod certs;
mod drafted;
mod part;

pub use crate::broken::{all_broken, tell_broken};
use crate::certs::certify;
use crate::drafted::check_drafted;
use cert_deleg::of_draft_changes::Changes;
use cert_deleg::of_live_ledger::{Draft, LiveLedger};
use cert_deleg::withdraw;
use govcert::refresh;
pub use ledger_state as of_ledger_state;
use ledger_state::LedgerState;
use no_memory::NoMemory;
pub use part::{CertPart, part_of};
pub use rule_checks as of_rule_checks;
use std::alloc::Global;
use tx_records::{Reply, Rule, Scripts, Tx, TxFault};
use utxo_rules::{Spent, check_spent};

/// Judges a transaction, and applies it if it breaks no rule; a refused one changes nothing.
/// All that epochs add stays. After an out-of-memory error there is no state.
/// (LEDGER of the formal specification)
pub fn apply_tx(alloc: Global, s: LedgerState, tx: &Tx) -> Result<(LedgerState, Reply), NoMemory>
    requires within { is_within_limits tx.now ≡ true }
    ensures ledger { IfOk result (λ r. r.0 ≡ on_ledger (λ l. (tx_step l tx.now).0) s) }
    ensures reply { IfOk result (λ r. r.1 ≡ (tx_step s.ledger tx.now).1) }
    ensures kept { (rule : Rule) → IfOk result (λ r. r.1 ≡ Reply.Refused rule → r.0 ≡ s) }
{
    match judged(alloc, &s, tx) {
        Ok(changes) => accepted(s, changes, tx),
        Err(TxFault::Refused(rule)) => Ok((s, Reply::Refused(rule))),
        Err(TxFault::NoMemory) => {
            drop(s);
            Err(NoMemory)
        }
    }
}

/// Judges a transaction and applies nothing, as a wallet does before it sends: it would be accepted
/// or breaks this rule first. (LEDGER of the formal specification)
pub fn judge(alloc: Global, s: &LedgerState, tx: &Tx) -> Result<(), TxFault>
    requires within { is_within_limits tx.now ≡ true }
    ensures rule { IsAnswered (first_broken s.now.ledger tx.now) result }
{
    drop(judged(alloc, s, tx)?);
    Ok(())
}

/// What a transaction changes, or the first rule that it breaks. (LEDGER; the call is own)
pub fn judged(alloc: Global, s: &LedgerState, tx: &Tx) -> Result<Changes, TxFault>
    requires within { is_within_limits tx.now ≡ true }
    ensures { IsJudged result s.now.ledger tx.now }
{
    changes_of(alloc, s.live(), tx)
}

/// Applies the changes that `judged` gave of this state. `NoMemory`: there is no state. (LEDGER)
pub fn accepted(s: LedgerState, changes: Changes, tx: &Tx) -> Result<(LedgerState, Reply), NoMemory>
    requires within { is_within_limits tx.now ≡ true }
    requires judged { IsJudged (Ok changes) s.ledger tx.now }
    ensures ledger { IfOk result (λ r. r.0 ≡ on_ledger (λ l. ledger_after_tx l tx.now) s) }
    ensures reply { IfOk result (λ r. r.1 ≡ accepted_as tx.now.scripts) }
{
    match s.commit(changes, tx) {
        Ok(after) => Ok((after, accepted_as(tx.scripts))),
        Err(error) => Err(error),
    }
}

/// What a transaction that breaks no rule changes, or the first rule that it breaks.
fn changes_of(alloc: Global, s: &LiveLedger, tx: &Tx) -> Result<Changes, TxFault>
    requires within { is_within_limits tx.now ≡ true }
    ensures { IsJudged result s.now.ledger tx.now }
{
    let spent = check_spent(alloc, s, tx)?;
    changes_of_spent(alloc, s, tx, spent)
}

/// The changes of a transaction that breaks none of the first rules and whose inputs hold so much.
fn changes_of_spent(
    alloc: Global,
    s: &LiveLedger,
    tx: &Tx,
    spent: Spent,
) -> Result<Changes, TxFault>
    requires within { is_within_limits tx.now ≡ true }
    requires checked { first_among (utxo_checks s.now.ledger tx.now) ≡ None }
    requires spent { IsSpent s.now.ledger tx.now.inputs spent }
    ensures { IsJudged result s.now.ledger tx.now }
{
    let mut draft = Draft::new(alloc, s);
    match judge_body(alloc, &mut draft, tx, spent) {
        Ok(()) => Ok(draft.into_changes()),
        Err(fault) => {
            drop(draft);
            Err(fault)
        }
    }
}

/// Makes the transaction's draft, or returns the first rule of its body that it breaks.
/// One whose scripts failed is exempt, and changes nothing in the draft.
fn judge_body(alloc: Global, draft: &mut Draft, tx: &Tx, spent: Spent) -> Result<(), TxFault>
    requires within { is_within_limits tx.now ≡ true }
    requires fresh { draft.old ≡ draft_at draft.old.start }
    requires spent { IsSpent draft.old.start tx.now.inputs spent }
    ensures rule { IsAnswered (first_among (unless_failed tx.now.scripts (body_checks draft.old.start tx.now))) result }
    ensures ledger { OnOk result (draft.new.ledger ≡ draft_of draft.old.start tx.now) }
    ensures start { draft.new.start ≡ draft.old.start }
{
    match tx.scripts {
        Scripts::Failed => Ok(()),
        Scripts::Absent | Scripts::Passed => judge_passed(alloc, draft, tx, spent),
    }
}

/// Makes the draft of a transaction with good scripts: withdrawals, refreshes of expiries,
/// certificates, and the rules after them.
fn judge_passed(alloc: Global, draft: &mut Draft, tx: &Tx, spent: Spent) -> Result<(), TxFault>
    requires within { is_within_limits tx.now ≡ true }
    requires fresh { draft.old ≡ draft_at draft.old.start }
    requires spent { IsSpent draft.old.start tx.now.inputs spent }
    ensures rule { IsAnswered (first_among (body_checks draft.old.start tx.now)) result }
    ensures ledger { OnOk result (draft.new.ledger ≡ last_draft draft.old.start tx.now) }
    ensures start { draft.new.start ≡ draft.old.start }
{
    withdraw(draft, tx)?;
    refresh(draft, tx)?;
    certify(draft, tx)?;
    check_drafted(alloc, draft, tx, spent)
}

/// The reply to a transaction that breaks no rule. (isValid of the formal specification)
pub fn accepted_as(scripts: Scripts) -> Reply
    ensures { result ≡ accepted_as scripts }
{
    match scripts {
        Scripts::Failed => Reply::AcceptedFailedScripts,
        Scripts::Absent | Scripts::Passed => Reply::Accepted,
    }
}
