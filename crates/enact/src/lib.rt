//! What an enacted action changes.
#![tactic(auto)]

ghost use Rattle.std.specs.Prelude.{◌≡◌, ◌-◌, ◌≤◌, [], ◌∷◌, sum_by, IfOk};
ghost use Rattle.gov_actions.specs.declared.state.EnactState.{EnactState};
ghost use Rattle.gov_ids.specs.Orders.{credential_cmp};
ghost use Rattle.gov_model.specs.Enacted.{withdrawn_by, enacted_from, last_ids_after};
ghost use Rattle.gov_model.specs.Sides.{members_of};
ghost use Rattle.maps.specs.Maps.{IsMap};

mod committee;

use coin_frac::NoMemory;
use committee::updated;
use gov_actions::{Action, EnactState, LastIds, Purpose};
use gov_ids::{Account, ActionId};
use std::alloc::Global;

/// A state that enacted actions change. (CIP-1694, Enactment; ENACT of the formal specification)
pub trait Enact {
    ghost state: { Self → EnactState };

    /// The state after an action with its id was enacted. Withdrawals leave the treasury;
    /// the caller decides who gets them. `NoMemory`: the state is gone.
    /// (CIP-1694, Enactment; ENACT of the formal specification)
    fn apply(self, alloc: Global, id: ActionId, a: &Action) -> Result<EnactState, NoMemory>
        requires affordable { withdrawn_by a.now ≤ (state self).treasury }
        requires in_order { IsMap credential_cmp (members_of (state self).committee) }
        ensures enacted { IfOk result (λ s. s ≡ enacted_from (state self) ((id, a.now) ∷ [])) }
        ensures in_order { IfOk result (λ s. IsMap credential_cmp (members_of s.committee)) };
}

impl Enact for EnactState {
    ghost state = { λ s. s };

    fn apply(self, alloc: Global, id: ActionId, a: &Action) -> Result<EnactState, NoMemory> {
        let last = last_ids(self.last, id, a);
        match a {
            Action::NoConfidence { .. } => Ok(EnactState {
                committee: None,
                last,
                ..self
            }),
            Action::UpdateCommittee {
                remove,
                add,
                threshold,
                ..
            } => {
                let committee = updated(alloc, self.committee, remove, add.as_slice(), *threshold)?;
                Ok(EnactState {
                    committee: Some(committee),
                    last,
                    ..self
                })
            }
            Action::NewConstitution {
                document,
                script,
                ..
            } => Ok(EnactState {
                document: *document,
                script: *script,
                last,
                ..self
            }),
            Action::HardForkInitiation { version, .. } => Ok(EnactState {
                version: *version,
                last,
                ..self
            }),
            Action::ParameterChange { update, .. } => Ok(EnactState {
                params: self.params.laid_over(update),
                last,
                ..self
            }),
            Action::TreasuryWithdrawals { targets, .. } => Ok(EnactState {
                treasury: left_of(self.treasury, targets.as_slice()),
                ..self
            }),
            Action::Info => Ok(self),
        }
    }
}

// The last ids with that of an action for its purpose, if it has one.
fn last_ids(before: LastIds, id: ActionId, a: &Action) -> LastIds
    ensures { result ≡ last_ids_after before ((id, a.now) ∷ []) }
{
    match a.purpose() {
        Some(Purpose::Committee) => LastIds {
            committee: Some(id),
            ..before
        },
        Some(Purpose::Constitution) => LastIds {
            constitution: Some(id),
            ..before
        },
        Some(Purpose::HardFork) => LastIds {
            hardfork: Some(id),
            ..before
        },
        Some(Purpose::Parameters) => LastIds {
            parameters: Some(id),
            ..before
        },
        None => before,
    }
}

// What is left of the treasury, in lovelace.
fn left_of(treasury: u64, targets: &[(Account, u64)]) -> u64
    requires { sum_by (λ t. t.1) targets.now ≤ treasury }
    ensures { result ≡ treasury - sum_by (λ t. t.1) targets.now }
{
    let mut left = treasury;
    for (_, amount) in targets {
        left -= *amount;
    }
    left
}
