ghost use Rattle.std.specs.Prelude.{◌≡◌};
ghost use Rattle.proposal_rules.specs.Parts.{deposit_checks, lineage_checks};

use crate::actions::{check_action, tell_action};
use gov_actions::Action;
use lineage::{follows_version, may_follow};
use live_ledger::{Draft, LiveLedger};
use no_memory::NoMemory;
use rule_checks::{Check, ItemRules, Told, first_of};
use tx_records::rules::{
    CANNOT_FOLLOW, PREVIOUS_WRONG, PROPOSAL_DEPOSIT_WRONG, RETURN_ACCOUNT_UNKNOWN,
    RETURN_WRONG_NETWORK,
};
use tx_records::{ProposalRecord, Rule};

/// The rules on each proposal: deposit, return account, what its action must keep, what it follows.
#[derive(Drop)]
pub struct Proposals<'a> {
    pub d: &'a Draft<'a>,
}

impl<'a> ItemRules for Proposals<'a> {
    ghost use Rattle.ledger_model.specs.ProposalRules.{proposal_checks};

    type Item = ProposalRecord;

    ghost checks = { λ r i p. proposal_checks r.d.now.start r.d.now.ledger i p };

    fn check(&self, _place: usize, p: &ProposalRecord) -> Result<(), Rule> {
        first_of(&deposit_checks(self.d, p))?;
        check_action(self.d, &p.action)?;
        first_of(&lineage_checks(self.d.start(), &p.action))
    }

    fn tell(&self, place: usize, p: &ProposalRecord, told: &mut Told) -> Result<(), NoMemory> {
        told.add_at(place, &deposit_checks(self.d, p))?;
        tell_action(self.d, place, &p.action, told)?;
        told.add_at(place, &lineage_checks(self.d.start(), &p.action))
    }
}

/// The rules on the deposit and the account that gets it back.
fn deposit_checks(d: &Draft, p: &ProposalRecord) -> [Check; 3]
    ensures { result ≡ deposit_checks d.now.start d.now.ledger p.now }
{
    let s = d.start();
    let due = s.params().gov_action_deposit;
    let unknown = d.account(&p.account.cred).is_none();
    [
        Check::keeping(PROPOSAL_DEPOSIT_WRONG, u128::from(due), p.deposit != due),
        Check::plain(RETURN_WRONG_NETWORK, p.account.network != s.network()),
        Check::plain(RETURN_ACCOUNT_UNKNOWN, unknown),
    ]
}

/// The rules on what the action follows.
fn lineage_checks(s: &LiveLedger, a: &Action) -> [Check; 2]
    ensures { result ≡ lineage_checks s.now.ledger a.now }
{
    let follows = may_follow(s.proposals(), &s.state().last, a);
    let is_next = follows_version(s.proposals(), s.state(), a);
    [
        Check::plain(PREVIOUS_WRONG, !follows),
        Check::plain(CANNOT_FOLLOW, !is_next),
    ]
}
