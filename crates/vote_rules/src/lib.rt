//! The rules on votes.
#![tactic(auto)]

ghost use Rattle.std.specs.Prelude.{◌≡◌, OnOk, true};
ghost use Rattle.ledger_model.specs.Checks.{answer_of, per_place};
ghost use Rattle.ledger_model.specs.ProposalRules.{vote_checks};
ghost use Rattle.rule_checks.specs.Told.{told_with};
ghost use Rattle.tx_records.specs.TxLimits.{is_within_limits};

mod vote;
mod voter;

use crate::vote::Votes;
use live_ledger::Draft;
use no_memory::NoMemory;
use rule_checks::{Told, check_each, tell_each};
use tx_records::{Rule, Tx};

/// The first broken rule on votes, if any, with the vote's index. It takes no memory. Voters are of
/// the draft after all certificates; live proposals are of the ledger before the transaction.
/// (CIP-1694, Votes; GOV of the formal specification; that live proposals are those before is own)
pub fn check(d: &Draft, tx: &Tx) -> Result<(), Rule>
    requires { is_within_limits tx.now ≡ true }
    ensures { result ≡ answer_of (per_place (vote_checks d.now.start d.now.ledger) tx.now.votes) }
{
    check_each(&Votes { d }, tx.votes.as_slice())
}

/// Adds every broken rule on votes, with the vote's index; of the same draft and the same ledger.
/// (CIP-1694, Votes; GOV of the formal specification; the list of all is own)
pub fn tell(d: &Draft, tx: &Tx, told: &mut Told) -> Result<(), NoMemory>
    requires { is_within_limits tx.now ≡ true }
    ensures { OnOk result (told.new ≡
        told_with (per_place (vote_checks d.now.start d.now.ledger) tx.now.votes) told.old) }
{
    tell_each(&Votes { d }, tx.votes.as_slice(), told)
}
