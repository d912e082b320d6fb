ghost use Rattle.std.specs.Prelude.{◌≡◌, IfOk};

use crate::action::Action;
use crate::state::{Committee, EnactState};
use listed::Listed;
use pparams::of_coin_frac::NoMemory;
use std::alloc::Global;

impl Action {
    /// A copy of the action, in memory of its own.
    pub fn copied(&self, alloc: Global) -> Result<Action, NoMemory>
        ensures { IfOk result (λ copy. copy ≡ self.now) }
    {
        match self {
            Action::NoConfidence { previous } => Ok(Action::NoConfidence {
                previous: *previous,
            }),
            Action::UpdateCommittee {
                previous,
                remove,
                add,
                threshold,
            } => Ok(Action::UpdateCommittee {
                previous: *previous,
                remove: remove.copied(alloc)?,
                add: copied_list(alloc, add)?,
                threshold: *threshold,
            }),
            Action::NewConstitution {
                previous,
                document,
                script,
            } => Ok(Action::NewConstitution {
                previous: *previous,
                document: *document,
                script: *script,
            }),
            Action::HardForkInitiation { previous, version } => Ok(Action::HardForkInitiation {
                previous: *previous,
                version: *version,
            }),
            Action::ParameterChange {
                previous,
                update,
                policy,
            } => Ok(Action::ParameterChange {
                previous: *previous,
                update: *update,
                policy: *policy,
            }),
            Action::TreasuryWithdrawals { targets, policy } => Ok(Action::TreasuryWithdrawals {
                targets: copied_list(alloc, targets)?,
                policy: *policy,
            }),
            Action::Info => Ok(Action::Info),
        }
    }
}

impl EnactState {
    /// A copy of the state, in memory of its own, for a pass that starts from it.
    pub fn copied(&self, alloc: Global) -> Result<EnactState, NoMemory>
        ensures { IfOk result (λ copy. copy ≡ self.now) }
    {
        Ok(EnactState {
            params: self.params,
            version: self.version,
            committee: copied_committee(alloc, &self.committee)?,
            document: self.document,
            script: self.script,
            last: self.last,
            treasury: self.treasury,
        })
    }
}

// A copy of the committee, if there is one.
fn copied_committee(
    alloc: Global,
    committee: &Option<Committee>,
) -> Result<Option<Committee>, NoMemory>
    ensures { IfOk result (λ copy. copy ≡ committee.now) }
{
    let Some(committee) = committee else {
        return Ok(None);
    };
    Ok(Some(Committee {
        members: committee.members.copied(alloc)?,
        threshold: committee.threshold,
    }))
}

// A copy of the list, in memory of its own.
fn copied_list<T: Copy>(alloc: Global, list: &Listed<T>) -> Result<Listed<T>, NoMemory>
    ensures { IfOk result (λ copy. copy ≡ list.now) }
{
    Ok(Listed::from_vec(Vec::from_slice(alloc, list.as_slice())?))
}
