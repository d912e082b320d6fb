ghost use Rattle.std.specs.Prelude.{◌≡◌, true, IfOk};
ghost use Rattle.std.specs.Option.{option_copied};
ghost use Rattle.run_model.specs.Step.{step};
ghost use Rattle.tx_records.specs.RecordLimits.{is_within_limits};
ghost use Rattle.tx_records.specs.TxLimits as tx_limits;
ghost use Rattle.tx_records.specs.declared.record.Record.TheVariants as records;
ghost use Rattle.undo_before.specs.Old.{naming_nothing, tx_of};
ghost use Rattle.undo_model.specs.Holds.{Holds};

use crate::old::{old_values, outputs_only};
use crate::transactions::before_judged;
use listed::Listed;
use no_memory::NoMemory;
use std::alloc::Global;
use tx_records::{Record, Tx, TxFault};
use tx_rule::judged;
use tx_rule::of_ledger_state::LedgerState;
use undo_records::Before;

/// The old values of all that a record changes, if it stays in the epoch; it judges a transaction.
/// A refused record changes nothing. `NoMemory`: memory ran out. (Own)
pub fn before(alloc: Global, s: &LedgerState, r: &Record) -> Result<Before, NoMemory>
    requires within { is_within_limits r.now ≡ true }
    ensures { (step s.now r.now).0.ledger.epoch ≡ s.now.ledger.epoch →
        IfOk result (λ b. Holds s.now b (step s.now r.now).0) }
{
    match transaction_in(r) {
        Some(tx) => before_tx(alloc, s, tx),
        None => Ok(before_other(alloc, s)),
    }
}

/// The transaction that a record is, if it is one.
fn transaction_in(r: &Record) -> Option<&Tx>
    ensures { option_copied result ≡ tx_of r.now }
{
    match r {
        Record::Tx(tx) => Some(tx.get()),
        Record::Genesis(_) | Record::Block { .. } | Record::Rewards(_) | Record::Print(_) => None,
    }
}

/// The old values of all that a transaction changes; a refused one changes nothing.
fn before_tx(alloc: Global, s: &LedgerState, tx: &Tx) -> Result<Before, NoMemory>
    requires within { tx_limits.is_within_limits tx.now ≡ true }
    ensures { IfOk result (λ b. Holds s.now b (step s.now (records.Tx tx.now)).0) }
{
    match judged(alloc, s, tx) {
        Ok(changes) => before_judged(alloc, s, &changes, tx),
        Err(TxFault::Refused(_)) => Ok(before_other(alloc, s)),
        Err(TxFault::NoMemory) => Err(NoMemory),
    }
}

/// The values of which a ledger has one, and none at names.
fn before_other(alloc: Global, s: &LedgerState) -> Before
    ensures { result ≡ naming_nothing s.now }
{
    let entries = outputs_only(alloc, Listed::new(alloc));
    Before::of_parts(old_values(s, None), entries)
}
