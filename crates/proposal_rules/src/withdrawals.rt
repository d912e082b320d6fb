ghost use Rattle.std.specs.Prelude.{◌≡◌, ◌==◌, not, sum_by};
ghost use Rattle.std.specs.List.{list_any};
ghost use Rattle.ledger_model.specs.Ledger.{is_account};
ghost use Rattle.ledger_model.specs.ProposalRules.{target_checks};

use crate::policy::is_other_policy;
use gov_ids::Account;
use live_ledger::Draft;
use rule_checks::Check;
use tx_records::rules::{POLICY_WRONG, TARGET_UNKNOWN, TARGET_WRONG_NETWORK, ZERO_WITHDRAWAL};

/// The rules on treasury withdrawals.
pub fn target_checks(d: &Draft, targets: &[(Account, u64)], policy: Option<[u8; 28]>) -> [Check; 4]
    ensures { result ≡ target_checks d.now.start d.now.ledger targets.now policy }
{
    let s = d.start();
    [
        Check::plain(POLICY_WRONG, is_other_policy(s, policy)),
        Check::plain(TARGET_WRONG_NETWORK, is_any_beyond(s.network(), targets)),
        Check::plain(TARGET_UNKNOWN, is_any_unknown(d, targets)),
        Check::plain(ZERO_WITHDRAWAL, is_nothing_paid(targets)),
    ]
}

/// Whether some target is on another network.
fn is_any_beyond(network: u8, targets: &[(Account, u64)]) -> bool
    ensures { result ≡ list_any (λ t. not (t.0.network == network)) targets.now }
{
    targets
        .iter()
        .any(|(account, _)| account.network != network)
}

/// Whether some target is not registered.
fn is_any_unknown(d: &Draft, targets: &[(Account, u64)]) -> bool
    ensures { result ≡ list_any (λ t. not (is_account d.now.ledger t.0.cred)) targets.now }
{
    targets
        .iter()
        .any(|(account, _)| d.account(&account.cred).is_none())
}

/// Whether the sum for the targets is 0.
fn is_nothing_paid(targets: &[(Account, u64)]) -> bool
    ensures { result ≡ (sum_by (λ t. t.1) targets.now == 0) }
{
    targets.iter().all(|(_, lovelace)| *lovelace == 0)
}
