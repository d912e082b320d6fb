//! Every rule that a record breaks over a ledger, where a refusal names the first.
#![tactic(auto)]

ghost use Rattle.std.specs.Prelude.{◌≡◌, [], IfOk, OnOk, true};
ghost use Rattle.explain_model.specs.Broken.{broken_by};
ghost use Rattle.rule_checks.specs.Told.{told_with};
ghost use Rattle.tx_records.specs.RecordLimits.{is_within_limits};

use no_memory::NoMemory;
use std::alloc::Global;
use tx_records::rules::GENESIS_AGAIN;
use tx_records::{Record, Rule};
use tx_rule::of_ledger_state::LedgerState;
use tx_rule::of_rule_checks::{Check, Told};
use tx_rule::tell_broken;

/// Every rule that a record breaks, in order; none if and only if it would be accepted.
/// Nothing changes. (UTXO, CERTS, GOV and TICK of the formal specification; the order is own)
pub fn all_broken(
    alloc: Global,
    ledger: &LedgerState,
    found: &Record,
) -> Result<Vec<Rule>, NoMemory>
    requires within { is_within_limits found.now ≡ true }
    ensures { IfOk result (λ rules. rules.items ≡ broken_by ledger.now found.now) }
{
    let mut told = Told::new(alloc);
    match tell(alloc, ledger, found, &mut told) {
        Ok(()) => Ok(told.into_rules()),
        Err(error) => {
            drop(told);
            Err(error)
        }
    }
}

/// Adds every rule that a record breaks.
fn tell(
    alloc: Global,
    ledger: &LedgerState,
    found: &Record,
    told: &mut Told,
) -> Result<(), NoMemory>
    requires within { is_within_limits found.now ≡ true }
    requires none { told.old ≡ [] }
    ensures { OnOk result (told.new ≡ broken_by ledger.now found.now) }
{
    match found {
        Record::Genesis(_) => told.add(&[Check::plain(GENESIS_AGAIN, true)]),
        Record::Block { slot, pulse } => ledger.tell_block(*slot, *pulse, told),
        Record::Rewards(update) => ledger.tell_rewards(update, told),
        Record::Tx(tx) => tell_broken(alloc, ledger, tx.get(), told),
        Record::Print(_) => Ok(()),
    }
}
