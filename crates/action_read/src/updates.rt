//! The parameters that an object names, a group at a time.
ghost use Rattle.json_tree.specs.View.{view};
ghost use Rattle.json_fields.specs.Reads.{Reads};
ghost use Rattle.action_read.specs.Params.{network_group_in, fees_in, incomes_in, technical_group_in, governance_group_in};

use crate::thresholds::{DrepThresholds, PoolThresholds};
use coin_frac::{Ratio, Unit};
use json_fields::{FieldFault, maybe};
use json_tree::Value;
use pparams::Update;
use std::alloc::Global;

#[tactic(auto, unfolding(crate::specs::Params::network_group_in))]
pub fn with_network_group(
    alloc: Global,
    object: &Value<'_>,
    update: Update,
) -> Result<Update, FieldFault>
    ensures { Reads result (network_group_in (view object.now) update) }
{
    Ok(Update {
        max_block_body_size: maybe::<u32>(alloc, object, "maxBlockBodySize")?,
        max_tx_size: maybe::<u32>(alloc, object, "maxTxSize")?,
        max_block_header_size: maybe::<u32>(alloc, object, "maxBlockHeaderSize")?,
        max_value_size: maybe::<u32>(alloc, object, "maxValueSize")?,
        max_tx_ex_units: maybe::<(u64, u64)>(alloc, object, "maxTxExUnits")?,
        max_block_ex_units: maybe::<(u64, u64)>(alloc, object, "maxBlockExUnits")?,
        max_collateral_inputs: maybe::<u16>(alloc, object, "maxCollateralInputs")?,
        ..update
    })
}

/// The fees and deposits of the economic group.
#[tactic(auto, unfolding(crate::specs::Params::fees_in))]
pub fn with_fees(alloc: Global, object: &Value<'_>, update: Update) -> Result<Update, FieldFault>
    ensures { Reads result (fees_in (view object.now) update) }
{
    Ok(Update {
        min_fee_a: maybe::<u64>(alloc, object, "minFeeA")?,
        min_fee_b: maybe::<u64>(alloc, object, "minFeeB")?,
        key_deposit: maybe::<u64>(alloc, object, "keyDeposit")?,
        pool_deposit: maybe::<u64>(alloc, object, "poolDeposit")?,
        ..update
    })
}

/// The others of the economic group.
#[tactic(auto, unfolding(crate::specs::Params::incomes_in))]
pub fn with_incomes(alloc: Global, object: &Value<'_>, update: Update) -> Result<Update, FieldFault>
    ensures { Reads result (incomes_in (view object.now) update) }
{
    Ok(Update {
        rho: maybe::<Unit>(alloc, object, "rho")?,
        tau: maybe::<Unit>(alloc, object, "tau")?,
        min_pool_cost: maybe::<u64>(alloc, object, "minPoolCost")?,
        coins_per_utxo_byte: maybe::<u64>(alloc, object, "coinsPerUTxOByte")?,
        prices: maybe::<(Ratio, Ratio)>(alloc, object, "prices")?,
        min_fee_ref_script_cost_per_byte: maybe::<Ratio>(
            alloc,
            object,
            "minFeeRefScriptCostPerByte",
        )?,
        ..update
    })
}

#[tactic(auto, unfolding(crate::specs::Params::technical_group_in))]
pub fn with_technical_group(
    alloc: Global,
    object: &Value<'_>,
    update: Update,
) -> Result<Update, FieldFault>
    ensures { Reads result (technical_group_in (view object.now) update) }
{
    Ok(Update {
        a0: maybe::<Ratio>(alloc, object, "a0")?,
        e_max: maybe::<u32>(alloc, object, "eMax")?,
        n_opt: maybe::<u16>(alloc, object, "nOpt")?,
        cost_models: maybe::<[u8; 32]>(alloc, object, "costModels")?,
        collateral_percentage: maybe::<u16>(alloc, object, "collateralPercentage")?,
        ..update
    })
}

#[tactic(auto, unfolding(crate::specs::Params::governance_group_in))]
pub fn with_governance_group(
    alloc: Global,
    object: &Value<'_>,
    update: Update,
) -> Result<Update, FieldFault>
    ensures { Reads result (governance_group_in (view object.now) update) }
{
    Ok(Update {
        pool_voting_thresholds: maybe::<PoolThresholds>(alloc, object, "poolVotingThresholds")?,
        drep_voting_thresholds: maybe::<DrepThresholds>(alloc, object, "drepVotingThresholds")?,
        gov_action_lifetime: maybe::<u32>(alloc, object, "govActionLifetime")?,
        gov_action_deposit: maybe::<u64>(alloc, object, "govActionDeposit")?,
        drep_deposit: maybe::<u64>(alloc, object, "drepDeposit")?,
        drep_activity: maybe::<u32>(alloc, object, "drepActivity")?,
        committee_min_size: maybe::<u16>(alloc, object, "committeeMinSize")?,
        committee_max_term_length: maybe::<u32>(alloc, object, "committeeMaxTermLength")?,
        ..update
    })
}
