ghost use Rattle.std.specs.Prelude.{◌≡◌, ◌<◌, ◌^◌, OnOk, map};
ghost use Rattle.ledger_model.specs.Checks.{answer_of, at_place};
ghost use Rattle.ledger_model.specs.ProposalRules.{action_checks};
ghost use Rattle.rule_checks.specs.Told.{told_with};

use crate::committee::member_checks;
use crate::parameters::update_checks;
use crate::withdrawals::target_checks;
use gov_actions::Action;
use live_ledger::Draft;
use no_memory::NoMemory;
use rule_checks::{Told, first_of};
use tx_records::Rule;

/// The first of the rules of its type that an action breaks, if there is one.
pub fn check_action(d: &Draft, a: &Action) -> Result<(), Rule>
    ensures { result ≡ answer_of (action_checks d.now.start d.now.ledger a.now) }
{
    let s = d.start();
    match a {
        Action::ParameterChange { update, policy, .. } => {
            first_of(&update_checks(s, update, *policy))
        }
        Action::TreasuryWithdrawals { targets, policy } => {
            first_of(&target_checks(d, targets.as_slice(), *policy))
        }
        Action::UpdateCommittee { remove, add, .. } => {
            first_of(&member_checks(s, remove, add.as_slice()))
        }
        _ => Ok(()),
    }
}

/// Adds all rules of its type that an action breaks, at the proposal's place.
pub fn tell_action(d: &Draft, place: usize, a: &Action, told: &mut Told) -> Result<(), NoMemory>
    requires { place < 2 ^ 32 }
    ensures { OnOk result (told.new ≡
        told_with (map (at_place place) (action_checks d.now.start d.now.ledger a.now)) told.old) }
{
    let s = d.start();
    match a {
        Action::ParameterChange { update, policy, .. } => {
            told.add_at(place, &update_checks(s, update, *policy))
        }
        Action::TreasuryWithdrawals { targets, policy } => {
            told.add_at(place, &target_checks(d, targets.as_slice(), *policy))
        }
        Action::UpdateCommittee { remove, add, .. } => {
            told.add_at(place, &member_checks(s, remove, add.as_slice()))
        }
        _ => Ok(()),
    }
}
