use crate::actions::read_action;
use crate::params::{read_params, read_update};
use gov_actions::Action;
use json_fields::{FieldFault, Kind};
use json_tree::Value;
use pparams::{Params, Update};
use std::alloc::Global;

/// A field that has all parameters.
pub struct ParamsField;

impl Kind for ParamsField {
    type Entry = Params;

    ghost use Rattle.action_read.specs.Params.{params_in};

    ghost reading = { params_in };

    fn read(alloc: Global, value: &Value<'_>) -> Result<Params, FieldFault> {
        read_params(alloc, value)
    }
}

/// A field that has an update of the parameters.
pub struct UpdateField;

impl Kind for UpdateField {
    type Entry = Update;

    ghost use Rattle.action_read.specs.Params.{update_in};

    ghost reading = { update_in };

    fn read(alloc: Global, value: &Value<'_>) -> Result<Update, FieldFault> {
        read_update(alloc, value)
    }
}

/// A field that has a governance action.
pub struct ActionField;

impl Kind for ActionField {
    type Entry = Action;

    ghost use Rattle.action_read.specs.Actions.{action_in};

    ghost reading = { action_in };

    fn read(alloc: Global, value: &Value<'_>) -> Result<Action, FieldFault> {
        read_action(alloc, value)
    }
}
