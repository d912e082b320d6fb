ghost use Rattle.std.specs.Prelude.{◌≡◌};
ghost use Rattle.ledger_model.specs.ProposalRules.{is_other_policy};

use live_ledger::LiveLedger;

/// Whether a policy is not the constitution's script. (CIP-1694, The constitution)
pub fn is_other_policy(s: &LiveLedger, policy: Option<[u8; 28]>) -> bool
    ensures { result ≡ is_other_policy s.now.ledger policy }
{
    policy != s.state().script
}
