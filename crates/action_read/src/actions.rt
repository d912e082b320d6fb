ghost use Rattle.json_tree.specs.View.{view};
ghost use Rattle.json_fields.specs.Reads.{Reads};
ghost use Rattle.action_read.specs.Actions.{action_in, action_of_type, hard_fork_in, new_constitution_in, no_confidence_in, parameter_change_in, treasury_withdrawals_in, update_committee_in};

use crate::entries::{Credentials, Distinct, Term};
use crate::kinds::UpdateField;
use coin_frac::Unit;
use gov_actions::Action;
use gov_ids::{Account, ActionId, Credential};
use json_fields::{FieldFault, field, maybe, needed, read_text};
use json_tree::Value;
use std::alloc::Global;

#[tactic(auto, unfolding(crate::specs::Actions::no_confidence_in))]
fn read_no_confidence(alloc: Global, object: &Value<'_>) -> Result<Action, FieldFault>
    ensures { Reads result (no_confidence_in (view object.now)) }
{
    Ok(Action::NoConfidence {
        previous: maybe::<ActionId>(alloc, object, "previous")?,
    })
}

#[tactic(auto, unfolding(crate::specs::Actions::update_committee_in))]
fn read_update_committee(alloc: Global, object: &Value<'_>) -> Result<Action, FieldFault>
    ensures { Reads result (update_committee_in (view object.now)) }
{
    Ok(Action::UpdateCommittee {
        previous: maybe::<ActionId>(alloc, object, "previous")?,
        remove: needed::<Credentials>(alloc, object, "remove")?,
        add: needed::<Distinct<(Credential, Term)>>(alloc, object, "add")?,
        threshold: needed::<Unit>(alloc, object, "threshold")?,
    })
}

#[tactic(auto, unfolding(crate::specs::Actions::new_constitution_in))]
fn read_new_constitution(alloc: Global, object: &Value<'_>) -> Result<Action, FieldFault>
    ensures { Reads result (new_constitution_in (view object.now)) }
{
    Ok(Action::NewConstitution {
        previous: maybe::<ActionId>(alloc, object, "previous")?,
        document: needed::<[u8; 32]>(alloc, object, "document")?,
        script: maybe::<[u8; 28]>(alloc, object, "script")?,
    })
}

#[tactic(auto, unfolding(crate::specs::Actions::hard_fork_in))]
fn read_hard_fork(alloc: Global, object: &Value<'_>) -> Result<Action, FieldFault>
    ensures { Reads result (hard_fork_in (view object.now)) }
{
    Ok(Action::HardForkInitiation {
        previous: maybe::<ActionId>(alloc, object, "previous")?,
        version: needed::<(u32, u32)>(alloc, object, "version")?,
    })
}

#[tactic(auto, unfolding(crate::specs::Actions::parameter_change_in))]
fn read_parameter_change(alloc: Global, object: &Value<'_>) -> Result<Action, FieldFault>
    ensures { Reads result (parameter_change_in (view object.now)) }
{
    Ok(Action::ParameterChange {
        previous: maybe::<ActionId>(alloc, object, "previous")?,
        update: needed::<UpdateField>(alloc, object, "update")?,
        policy: maybe::<[u8; 28]>(alloc, object, "policy")?,
    })
}

#[tactic(auto, unfolding(crate::specs::Actions::treasury_withdrawals_in))]
fn read_treasury_withdrawals(alloc: Global, object: &Value<'_>) -> Result<Action, FieldFault>
    ensures { Reads result (treasury_withdrawals_in (view object.now)) }
{
    Ok(Action::TreasuryWithdrawals {
        targets: needed::<Distinct<(Account, u64)>>(alloc, object, "targets")?,
        policy: maybe::<[u8; 28]>(alloc, object, "policy")?,
    })
}

fn read_action_of_type(alloc: Global, name: &str, object: &Value<'_>) -> Result<Action, FieldFault>
    ensures { Reads result (action_of_type name.now (view object.now)) }
{
    match name {
        "NoConfidence" => read_no_confidence(alloc, object),
        "UpdateCommittee" => read_update_committee(alloc, object),
        "NewConstitution" => read_new_constitution(alloc, object),
        "HardForkInitiation" => read_hard_fork(alloc, object),
        "ParameterChange" => read_parameter_change(alloc, object),
        "TreasuryWithdrawals" => read_treasury_withdrawals(alloc, object),
        "Info" => Ok(Action::Info),
        _ => Err(FieldFault::OutOfRange),
    }
}

/// A governance action, by the field `type`. (CIP-1694, Governance actions)
pub fn read_action(alloc: Global, v: &Value<'_>) -> Result<Action, FieldFault>
    ensures { Reads result (action_in (view v.now)) }
{
    let name = read_text(field(v, "type")?)?;
    read_action_of_type(alloc, name, v)
}
