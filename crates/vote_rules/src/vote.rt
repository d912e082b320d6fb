ghost use Rattle.std.specs.Prelude.{◌≡◌};
ghost use Rattle.ledger_model.specs.ProposalRules.{vote_checks};

use crate::voter::{is_known_voter, is_unseated};
use gov_actions::may_vote;
use live_ledger::Draft;
use no_memory::NoMemory;
use rule_checks::{Check, ItemRules, Told, first_of};
use tx_records::rules::{
    ACTION_UNKNOWN, VOTER_NOT_ALLOWED, VOTER_NOT_SEATED, VOTER_UNKNOWN, VOTING_EXPIRED,
};
use tx_records::{Rule, VoteRecord};

/// The rules on each vote.
#[derive(Drop)]
pub struct Votes<'a> {
    pub d: &'a Draft<'a>,
}

impl<'a> ItemRules for Votes<'a> {
    ghost use Rattle.ledger_model.specs.ProposalRules.{vote_checks};

    type Item = VoteRecord;

    ghost checks = { λ r i v. vote_checks r.d.now.start r.d.now.ledger i v };

    fn check(&self, _place: usize, v: &VoteRecord) -> Result<(), Rule> {
        first_of(&vote_checks(self.d, v))
    }

    fn tell(&self, place: usize, v: &VoteRecord, told: &mut Told) -> Result<(), NoMemory> {
        told.add_at(place, &vote_checks(self.d, v))
    }
}

/// The rules on a vote, at any place. Its proposal is looked up once.
fn vote_checks(d: &Draft, v: &VoteRecord) -> [Check; 5]
    ensures { result ≡ vote_checks d.now.start d.now.ledger 0 v.now }
{
    let s = d.start();
    let voted = s.proposals().get(&v.action);
    let barred = voted.is_some_and(|p| !may_vote(&v.voter, p.action()));
    let expired = voted.is_some_and(|p| p.expires_after() < s.epoch());
    let unseated = s.is_from_version_eleven() && is_unseated(d, &v.voter);
    [
        Check::plain(ACTION_UNKNOWN, voted.is_none()),
        Check::plain(VOTER_UNKNOWN, !is_known_voter(d, &v.voter)),
        Check::plain(VOTER_NOT_ALLOWED, barred),
        Check::plain(VOTING_EXPIRED, expired),
        Check::plain(VOTER_NOT_SEATED, unseated),
    ]
}
