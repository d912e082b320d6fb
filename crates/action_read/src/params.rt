ghost use Rattle.std.specs.Prelude.{◌≡◌};
ghost use Rattle.std.specs.List.{list_all};
ghost use Rattle.std.specs.Result.{result_map_both};
ghost use Rattle.json_tree.specs.View.{view};
ghost use Rattle.json_fields.specs.Reads.{Reads};
ghost use Rattle.action_read.specs.Params.{is_param_name, param_object, params_in, update_in};

use crate::updates::{
    with_fees, with_governance_group, with_incomes, with_network_group, with_technical_group,
};
use crate::whole::params_of_update;
use json_fields::FieldFault;
use json_tree::Value;
use pparams::{Params, Update};
use std::alloc::Global;

/// The names of the parameters, in the order of the groups. (CIP-1694, Protocol parameter groups)
const PARAM_NAMES: [&str; 30] = [
    "maxBlockBodySize",
    "maxTxSize",
    "maxBlockHeaderSize",
    "maxValueSize",
    "maxTxExUnits",
    "maxBlockExUnits",
    "maxCollateralInputs",
    "minFeeA",
    "minFeeB",
    "keyDeposit",
    "poolDeposit",
    "rho",
    "tau",
    "minPoolCost",
    "coinsPerUTxOByte",
    "prices",
    "minFeeRefScriptCostPerByte",
    "a0",
    "eMax",
    "nOpt",
    "costModels",
    "collateralPercentage",
    "poolVotingThresholds",
    "drepVotingThresholds",
    "govActionLifetime",
    "govActionDeposit",
    "drepDeposit",
    "drepActivity",
    "committeeMinSize",
    "committeeMaxTermLength",
];

fn is_param_name(name: &str) -> bool
    ensures { result ≡ is_param_name name.now }
{
    PARAM_NAMES.contains(&name)
}

/// Whether each member has the name of a parameter.
fn names_only_params(fields: &[(&str, Value<'_>)]) -> bool
    ensures { result ≡ list_all (λ field. is_param_name field.0.now) fields.now }
{
    fields.iter().all(|field| is_param_name(field.0))
}

/// The object, where it names nothing but parameters.
#[tactic(auto, using(crate::proofs::Names::only_params_by_members))]
fn param_object<'v, 'a>(v: &'v Value<'a>) -> Result<&'v Value<'a>, FieldFault>
    ensures { result_map_both (λ d. view d.now) (λ e. e) result ≡ param_object (view v.now) }
{
    let fields = v.as_object().ok_or(FieldFault::WrongKind)?;
    if names_only_params(fields) {
        Ok(v)
    } else {
        Err(FieldFault::OutOfRange)
    }
}

/// An update: an object of parameters alone, each of its kind; a null one is absent. (Own)
#[tactic(auto, unfolding(crate::specs::Params::update_in))]
pub fn read_update(alloc: Global, v: &Value<'_>) -> Result<Update, FieldFault>
    ensures { Reads result (update_in (view v.now)) }
{
    let object = param_object(v)?;
    let update = with_network_group(alloc, object, Update::EMPTY)?;
    let update = with_fees(alloc, object, update)?;
    let update = with_incomes(alloc, object, update)?;
    let update = with_technical_group(alloc, object, update)?;
    with_governance_group(alloc, object, update)
}

/// The parameters of a genesis: an update that names each of them. (Own)
pub fn read_params(alloc: Global, v: &Value<'_>) -> Result<Params, FieldFault>
    ensures { Reads result (params_in (view v.now)) }
{
    match params_of_update(read_update(alloc, v)?) {
        Some(params) => Ok(params),
        None => Err(FieldFault::Missing),
    }
}
