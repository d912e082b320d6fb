//! Withdrawals and the certificates of accounts and pools: each is refused, or it changes a draft.
#![tactic(auto)]

ghost use Rattle.std.specs.Prelude.{◌≡◌, ◌+◌, ◌≤◌, ◌^◌, true, OnOk, length};
ghost use Rattle.ledger_model.specs.CertRules.{withdrawal_checks};
ghost use Rattle.ledger_model.specs.Changes.{withdrawn};
ghost use Rattle.ledger_model.specs.Checks.{first_among, per_place};
ghost use Rattle.rule_checks.specs.Answered.{IsAnswered};
ghost use Rattle.tx_records.specs.TxLimits.{is_within_limits};

pub mod account;
pub mod pool;
mod stored;
mod withdrawals;

use crate::withdrawals::{check_withdrawals, empty_accounts};
pub use book_records as of_book_records;
pub use live_ledger as of_live_ledger;
use live_ledger::Draft;
pub use live_ledger::of_draft_changes;
use no_memory::NoMemory;
use rule_checks::as_fault;
use tx_records::{Tx, TxFault};
pub use withdrawals::tell_withdrawals;

/// Empties each account of a withdrawal, or refuses with the first broken rule and its index.
/// The rules read the ledger before the transaction. (CERTS of the formal specification; that the
/// vote delegation is that of the ledger before the transaction is own)
pub fn withdraw(d: &mut Draft, tx: &Tx) -> Result<(), TxFault>
    requires within { is_within_limits tx.now ≡ true }
    requires few { d.old.changes ≤ 2 ^ 31 }
    ensures rule { IsAnswered (first_among (per_place (withdrawal_checks d.old.start) tx.now.withdrawals)) result }
    ensures ledger { OnOk result (d.new.ledger ≡ withdrawn tx.now d.old.ledger) }
    ensures moved { (d.new.refunds ≡ d.old.refunds) × (d.new.deposits ≡ d.old.deposits) }
    ensures start { d.new.start ≡ d.old.start }
    ensures few { d.new.changes ≤ d.old.changes + length tx.now.withdrawals }
{
    as_fault(check_withdrawals(d.start(), tx))?;
    empty(d, tx)?;
    Ok(())
}

/// Empties each account of a withdrawal, whether or not the withdrawal breaks a rule. An account
/// that is not registered stays as it is. `NoMemory`: drop the draft.
pub fn empty(d: &mut Draft, tx: &Tx) -> Result<(), NoMemory>
    requires within { is_within_limits tx.now ≡ true }
    requires few { d.old.changes ≤ 2 ^ 31 }
    ensures ledger { OnOk result (d.new.ledger ≡ withdrawn tx.now d.old.ledger) }
    ensures moved { (d.new.refunds ≡ d.old.refunds) × (d.new.deposits ≡ d.old.deposits) }
    ensures start { d.new.start ≡ d.old.start }
    ensures few { d.new.changes ≤ d.old.changes + length tx.now.withdrawals }
{
    empty_accounts(d, tx.withdrawals.as_slice())
}
