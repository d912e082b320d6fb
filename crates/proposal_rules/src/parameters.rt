ghost use Rattle.std.specs.Prelude.{◌≡◌};
ghost use Rattle.ledger_model.specs.ProposalRules.{update_checks};

use crate::policy::is_other_policy;
use live_ledger::LiveLedger;
use pparams::Update;
use rule_checks::Check;
use tx_records::rules::{POLICY_WRONG, UPDATE_MALFORMED};

/// The rules on an update of the parameters.
pub fn update_checks(s: &LiveLedger, update: &Update, policy: Option<[u8; 28]>) -> [Check; 2]
    ensures { result ≡ update_checks s.now.ledger update.now policy }
{
    [
        Check::plain(UPDATE_MALFORMED, !update.well_formed()),
        Check::plain(POLICY_WRONG, is_other_policy(s, policy)),
    ]
}
