ghost use Rattle.std.specs.Prelude.{◌≡◌, true};
ghost use Rattle.ledger_model.specs.Checks.{first_among};
ghost use Rattle.ledger_model.specs.Draft.{last_draft};
ghost use Rattle.ledger_model.specs.Flows.{flows_of_certs, hand, sink, source, sum_at};
ghost use Rattle.rule_checks.specs.Answered.{IsAnswered};
ghost use Rattle.tx_records.specs.TxLimits.{is_within_limits};
ghost use Rattle.tx_rule.specs.Drafted.{drafted_checks};
ghost use Rattle.utxo_rules.specs.Spent.{IsSpent};

use cert_deleg::of_live_ledger::Draft;
use rule_checks::as_fault;
use std::alloc::Global;
use tx_records::{Tx, TxFault};
use utxo_rules::{Spent, balance_of_spent};

/// The first broken rule on proposals, votes and balance, if any, by the draft after certificates
/// and by what the inputs hold.
pub fn check_drafted(alloc: Global, draft: &Draft, tx: &Tx, spent: Spent) -> Result<(), TxFault>
    requires within { is_within_limits tx.now ≡ true }
    requires drafted { draft.now.ledger ≡ last_draft draft.now.start tx.now }
    requires refunds { draft.now.refunds ≡ sum_at sink hand (flows_of_certs draft.now.start tx.now) }
    requires deposits { draft.now.deposits ≡ sum_at source hand (flows_of_certs draft.now.start tx.now) }
    requires spent { IsSpent draft.now.start tx.now.inputs spent }
    ensures { IsAnswered (first_among (drafted_checks draft.now.start tx.now)) result }
{
    as_fault(proposal_rules::check(draft, tx))?;
    as_fault(vote_rules::check(draft, tx))?;
    balance_of_spent(alloc, draft, tx, spent)
}
