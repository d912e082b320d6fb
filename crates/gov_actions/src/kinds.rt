ghost use Rattle.std.specs.Prelude.{◌≡◌};
ghost use Rattle.gov_actions.specs.Kinds.{is_delaying, kind_of, previous_of, priority_of, purpose_of};

use crate::action::{Action, ActionKind, Purpose};
use gov_ids::ActionId;

impl Action {
    /// The type of the action. (CIP-1694, Governance actions)
    pub fn kind(&self) -> ActionKind
        ensures { result ≡ kind_of self.now }
    {
        match self {
            Action::NoConfidence { .. } => ActionKind::NoConfidence,
            Action::UpdateCommittee { .. } => ActionKind::UpdateCommittee,
            Action::NewConstitution { .. } => ActionKind::NewConstitution,
            Action::HardForkInitiation { .. } => ActionKind::HardForkInitiation,
            Action::ParameterChange { .. } => ActionKind::ParameterChange,
            Action::TreasuryWithdrawals { .. } => ActionKind::TreasuryWithdrawals,
            Action::Info => ActionKind::Info,
        }
    }

    /// The place of its type in the order in which a pass looks at actions: 0 comes first.
    /// (CIP-1694, Enactment; RATIFY of the formal specification)
    pub fn priority(&self) -> u8
        ensures { result ≡ priority_of self.now }
    {
        match self {
            Action::NoConfidence { .. } => 0,
            Action::UpdateCommittee { .. } => 1,
            Action::NewConstitution { .. } => 2,
            Action::HardForkInitiation { .. } => 3,
            Action::ParameterChange { .. } => 4,
            Action::TreasuryWithdrawals { .. } => 5,
            Action::Info => 6,
        }
    }

    /// Whether all others wait for the next epoch once it is enacted.
    /// (CIP-1694, Ratification; RATIFY of the formal specification)
    pub fn delaying(&self) -> bool
        ensures { result ≡ is_delaying self.now }
    {
        matches!(
            self,
            Action::NoConfidence { .. }
                | Action::UpdateCommittee { .. }
                | Action::NewConstitution { .. }
                | Action::HardForkInitiation { .. }
        )
    }

    /// Its purpose, if it has one. (CIP-1694, Governance actions: Content)
    pub fn purpose(&self) -> Option<Purpose>
        ensures { result ≡ purpose_of self.now }
    {
        match self {
            Action::NoConfidence { .. } | Action::UpdateCommittee { .. } => {
                Some(Purpose::Committee)
            }
            Action::NewConstitution { .. } => Some(Purpose::Constitution),
            Action::HardForkInitiation { .. } => Some(Purpose::HardFork),
            Action::ParameterChange { .. } => Some(Purpose::Parameters),
            Action::TreasuryWithdrawals { .. } | Action::Info => None,
        }
    }

    /// The previous action that it names. (CIP-1694, Governance actions: Content)
    pub fn previous(&self) -> Option<ActionId>
        ensures { result ≡ previous_of self.now }
    {
        match self {
            Action::NoConfidence { previous }
            | Action::UpdateCommittee { previous, .. }
            | Action::NewConstitution { previous, .. }
            | Action::HardForkInitiation { previous, .. }
            | Action::ParameterChange { previous, .. } => *previous,
            Action::TreasuryWithdrawals { .. } | Action::Info => None,
        }
    }
}
