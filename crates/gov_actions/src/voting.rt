ghost use Rattle.std.specs.Prelude.{◌≡◌};
ghost use Rattle.gov_actions.specs.Voting.{committee_may_vote, may_vote, pools_may_vote};

use crate::action::Action;
use gov_ids::Voter;

/// Whether a voter may vote on an action; DReps may vote on all.
/// (CIP-1694, Ratification; who may vote, in GOV of the formal specification)
pub fn may_vote(voter: &Voter, action: &Action) -> bool
    ensures { result ≡ may_vote voter.now action.now }
{
    match voter {
        Voter::Committee(_) => committee_may_vote(action),
        Voter::Drep(_) => true,
        Voter::Pool(_) => pools_may_vote(action),
    }
}

// The committee votes on all except what changes it.
fn committee_may_vote(action: &Action) -> bool
    ensures { result ≡ committee_may_vote action.now }
{
    !matches!(
        action,
        Action::NoConfidence { .. } | Action::UpdateCommittee { .. }
    )
}

// Pools vote on the committee, on hard forks, on Info and on security parameters.
fn pools_may_vote(action: &Action) -> bool
    ensures { result ≡ pools_may_vote action.now }
{
    match action {
        Action::NoConfidence { .. }
        | Action::UpdateCommittee { .. }
        | Action::HardForkInitiation { .. }
        | Action::Info => true,
        Action::ParameterChange { update, .. } => update.security(),
        Action::NewConstitution { .. } | Action::TreasuryWithdrawals { .. } => false,
    }
}
