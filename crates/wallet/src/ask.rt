//! Whether a transaction will be accepted, and the ledger after it.
ghost use Rattle.std.specs.Prelude.{◌≡◌, Err, IfOk, None, Some, false, true};
ghost use Rattle.ledger_model.specs.Broken.{first_broken};
ghost use Rattle.ledger_model.specs.Transaction.{tx_step};
ghost use Rattle.run_model.specs.World.{on_ledger};
ghost use Rattle.tx_records.specs.TxLimits.{is_within_limits};
ghost use Rattle.tx_records.specs.declared.reply.Rule.{Rule};

use ledger_state::LedgerState;
use no_memory::NoMemory;
use std::alloc::Global;
use tx_records::{Reply, Rule, Tx, TxFault};
use tx_rule::{apply_tx, judge};

/// Why a transaction that is sent is not judged.
#[derive(Clone, Copy, Debug, PartialEq, Eq)]
pub enum SendFault {
    /// A list is longer, or a number greater, than a record may have.
    BeyondLimits,
    /// Memory ran out.
    NoMemory,
}

impl From<NoMemory> for SendFault {
    ghost use Rattle.wallet.specs.declared.ask.SendFault.TheVariants as faults;

    ghost from_gives = { λ _ fault. fault ≡ faults.NoMemory };

    fn from(_error: NoMemory) -> SendFault {
        SendFault::NoMemory
    }
}

/// Why a transaction would not be accepted, or is not judged.
#[derive(Clone, Copy, Debug, PartialEq, Eq)]
pub enum AskFault {
    /// The first rule that it breaks.
    Refused(Rule),
    /// A list is longer, or a number greater, than a record may have.
    BeyondLimits,
    /// Memory ran out.
    NoMemory,
}

impl From<NoMemory> for AskFault {
    ghost use Rattle.wallet.specs.declared.ask.AskFault.TheVariants as faults;

    ghost from_gives = { λ _ fault. fault ≡ faults.NoMemory };

    fn from(_error: NoMemory) -> AskFault {
        AskFault::NoMemory
    }
}

impl From<TxFault> for AskFault {
    ghost use Rattle.wallet.specs.Asking.{fault_of};

    ghost from_gives = { λ error fault. fault ≡ fault_of error };

    fn from(error: TxFault) -> AskFault {
        match error {
            TxFault::Refused(rule) => AskFault::Refused(rule),
            TxFault::NoMemory => AskFault::NoMemory,
        }
    }
}

/// Asks whether a transaction would be accepted, or which rule it breaks first. (Own)
pub fn ask(alloc: Global, ledger: &LedgerState, tx: &Tx) -> Result<(), AskFault>
    ensures accepted { IfOk result (λ _. first_broken ledger.now.ledger tx.now ≡ None) }
    ensures refused { (rule : Rule) → result ≡ Err (AskFault.Refused rule) →
        first_broken ledger.now.ledger tx.now ≡ Some rule }
    ensures judged { IfOk result (λ _. is_within_limits tx.now ≡ true) }
    ensures beyond { result ≡ Err AskFault.BeyondLimits → is_within_limits tx.now ≡ false }
{
    if !tx.is_within_limits(alloc)? {
        return Err(AskFault::BeyondLimits);
    }
    judge(alloc, ledger, tx)?;
    Ok(())
}

/// Sends a transaction: its reply, and the ledger after it, which a refusal leaves unchanged. (Own)
pub fn send(alloc: Global, ledger: LedgerState, tx: &Tx) -> Result<(LedgerState, Reply), SendFault>
    ensures reply { IfOk result (λ r. r.1 ≡ (tx_step ledger.ledger tx.now).1) }
    ensures ledger { IfOk result (λ r. r.0 ≡ on_ledger (λ l. (tx_step l tx.now).0) ledger) }
    ensures judged { IfOk result (λ _. is_within_limits tx.now ≡ true) }
    ensures beyond { result ≡ Err SendFault.BeyondLimits → is_within_limits tx.now ≡ false }
{
    match tx.is_within_limits(alloc) {
        Ok(true) => Ok(apply_tx(alloc, ledger, tx)?),
        Ok(false) => {
            drop(ledger);
            Err(SendFault::BeyondLimits)
        }
        Err(fault) => {
            drop(ledger);
            Err(SendFault::from(fault))
        }
    }
}

/// What can be asked: a ledger. The answers are over any, so that their proof opens no part of it.
pub trait Asked: Sized {
    ghost use Rattle.std.specs.Prelude.{◌≡◌, Err, IfOk, None, Some, false, true};
    ghost use Rattle.ledger_model.specs.Broken.{first_broken};
    ghost use Rattle.ledger_model.specs.Transaction.{tx_step};
    ghost use Rattle.run_model.specs.World.{World, on_ledger};
    ghost use Rattle.tx_records.specs.TxLimits.{is_within_limits};
    ghost use Rattle.tx_records.specs.declared.reply.Rule.{Rule};
    ghost use Rattle.wallet.specs.declared.ask.AskFault.TheVariants as faults;
    ghost use Rattle.wallet.specs.declared.ask.SendFault.TheVariants as send_faults;

    // the whole state of the ledger
    ghost world: { Self → World };

    /// Asks whether a transaction would be accepted, or which rule it breaks first.
    fn ask(&self, alloc: Global, tx: &Tx) -> Result<(), AskFault>
        ensures accepted { IfOk result (λ _. first_broken (world self.now).ledger tx.now ≡ None) }
        ensures refused { (rule : Rule) → result ≡ Err (faults.Refused rule) →
            first_broken (world self.now).ledger tx.now ≡ Some rule }
        ensures judged { IfOk result (λ _. is_within_limits tx.now ≡ true) }
        ensures beyond { result ≡ Err faults.BeyondLimits → is_within_limits tx.now ≡ false };

    /// Sends a transaction: what to ask next, which a refusal leaves unchanged, and the reply.
    fn send(self, alloc: Global, tx: &Tx) -> Result<(Self, Reply), SendFault>
        ensures reply { IfOk result (λ r. r.1 ≡ (tx_step (world self).ledger tx.now).1) }
        ensures ledger { IfOk result (λ r. world r.0 ≡ on_ledger (λ l. (tx_step l tx.now).0) (world self)) }
        ensures judged { IfOk result (λ _. is_within_limits tx.now ≡ true) }
        ensures beyond { result ≡ Err send_faults.BeyondLimits → is_within_limits tx.now ≡ false };
}

impl Asked for LedgerState {
    ghost use Rattle.run_model.specs.World.{World};

    ghost world = { λ (w : World). w };

    fn ask(&self, alloc: Global, tx: &Tx) -> Result<(), AskFault> {
        ask(alloc, self, tx)
    }

    fn send(self, alloc: Global, tx: &Tx) -> Result<(LedgerState, Reply), SendFault> {
        send(alloc, self, tx)
    }
}
