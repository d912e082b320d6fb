//! The rules on proposals.
#![tactic(auto)]

ghost use Rattle.std.specs.Prelude.{◌≡◌, OnOk, true};
ghost use Rattle.ledger_model.specs.Checks.{answer_of, per_place};
ghost use Rattle.ledger_model.specs.ProposalRules.{proposal_checks};
ghost use Rattle.rule_checks.specs.Told.{told_with};
ghost use Rattle.tx_records.specs.TxLimits.{is_within_limits};

mod actions;
mod committee;
mod parameters;
mod policy;
mod proposal;
mod withdrawals;

use crate::proposal::Proposals;
use live_ledger::Draft;
use no_memory::NoMemory;
use rule_checks::{Told, check_each, tell_each};
use tx_records::{Rule, Tx};

/// The first broken rule on proposals, if any, with the proposal's index. It takes no memory.
/// Registrations are those of the draft after all certificates; the rest is before the transaction.
/// (CIP-1694, Governance actions; GOV of the formal specification; such live proposals are own)
pub fn check(d: &Draft, tx: &Tx) -> Result<(), Rule>
    requires { is_within_limits tx.now ≡ true }
    ensures { result ≡ answer_of (per_place (proposal_checks d.now.start d.now.ledger) tx.now.proposals) }
{
    check_each(&Proposals { d }, tx.proposals.as_slice())
}

/// Adds every broken rule on proposals, with the proposal's index; by the same draft and ledger.
/// (CIP-1694, Governance actions; GOV of the formal specification; the list of all is own)
pub fn tell(d: &Draft, tx: &Tx, told: &mut Told) -> Result<(), NoMemory>
    requires { is_within_limits tx.now ≡ true }
    ensures { OnOk result (told.new ≡
        told_with (per_place (proposal_checks d.now.start d.now.ledger) tx.now.proposals) told.old) }
{
    tell_each(&Proposals { d }, tx.proposals.as_slice(), told)
}
