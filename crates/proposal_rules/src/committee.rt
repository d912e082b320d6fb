ghost use Rattle.std.specs.Prelude.{◌≡◌, nat_le};
ghost use Rattle.std.specs.List.{list_any};
ghost use Rattle.gov_ids.specs.Same.{same_credential};
ghost use Rattle.ledger_model.specs.ProposalRules.{member_checks};
ghost use Rattle.maps.specs.Words.{among};

use credential_list::CredentialList;
use gov_ids::Credential;
use live_ledger::LiveLedger;
use rule_checks::Check;
use tx_records::rules::{CONFLICTING_UPDATE, TERM_TOO_SMALL};

/// The rules on a change of the committee.
pub fn member_checks(
    s: &LiveLedger,
    remove: &CredentialList,
    add: &[(Credential, u64)],
) -> [Check; 2]
    ensures { result ≡ member_checks s.now.ledger remove.now add.now }
{
    [
        Check::plain(CONFLICTING_UPDATE, is_any_on_both(remove, add)),
        Check::plain(TERM_TOO_SMALL, is_any_over(s.epoch(), add)),
    ]
}

/// Whether some cold key is added and removed.
fn is_any_on_both(remove: &CredentialList, add: &[(Credential, u64)]) -> bool
    ensures { result ≡ list_any (λ m. among same_credential m.0 remove.now) add.now }
{
    add.iter().any(|(cold, _)| remove.contains(cold))
}

/// Whether some term is over by the end of this epoch.
fn is_any_over(epoch: u64, add: &[(Credential, u64)]) -> bool
    ensures { result ≡ list_any (λ m. nat_le m.1 epoch) add.now }
{
    add.iter().any(|(_, term)| *term <= epoch)
}
