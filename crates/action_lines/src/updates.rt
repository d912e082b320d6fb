//! Updates of the parameters.
ghost use Rattle.std.specs.Prelude.{◌≡◌, ◌++◌, IfOk, false};
ghost use Rattle.text_forms.specs.ActionText.{economic_fields, governance_fields, network_fields, technical_fields};
ghost use Rattle.action_lines.specs.Adding.{Adds};

use crate::fields::push_maybe;
use crate::json::Json;
use no_memory::NoMemory;
use pparams::Update;

/// Adds the parameters of the network group.
fn push_network(out: &mut Vec<u8>, begun: bool, u: &Update) -> Result<bool, NoMemory>
    ensures { IfOk result (Adds out.old.items begun (network_fields u.now) out.new.items) }
{
    let begun = push_maybe(out, begun, "maxBlockBodySize", &u.max_block_body_size)?;
    let begun = push_maybe(out, begun, "maxTxSize", &u.max_tx_size)?;
    let begun = push_maybe(out, begun, "maxBlockHeaderSize", &u.max_block_header_size)?;
    let begun = push_maybe(out, begun, "maxValueSize", &u.max_value_size)?;
    let begun = push_maybe(out, begun, "maxTxExUnits", &u.max_tx_ex_units)?;
    let begun = push_maybe(out, begun, "maxBlockExUnits", &u.max_block_ex_units)?;
    push_maybe(out, begun, "maxCollateralInputs", &u.max_collateral_inputs)
}

/// Adds those of the economic group.
fn push_economic(out: &mut Vec<u8>, begun: bool, u: &Update) -> Result<bool, NoMemory>
    ensures { IfOk result (Adds out.old.items begun (economic_fields u.now) out.new.items) }
{
    let begun = push_maybe(out, begun, "minFeeA", &u.min_fee_a)?;
    let begun = push_maybe(out, begun, "minFeeB", &u.min_fee_b)?;
    let begun = push_maybe(out, begun, "keyDeposit", &u.key_deposit)?;
    let begun = push_maybe(out, begun, "poolDeposit", &u.pool_deposit)?;
    let begun = push_maybe(out, begun, "rho", &u.rho)?;
    let begun = push_maybe(out, begun, "tau", &u.tau)?;
    let begun = push_maybe(out, begun, "minPoolCost", &u.min_pool_cost)?;
    let begun = push_maybe(out, begun, "coinsPerUTxOByte", &u.coins_per_utxo_byte)?;
    let begun = push_maybe(out, begun, "prices", &u.prices)?;
    push_maybe(
        out,
        begun,
        "minFeeRefScriptCostPerByte",
        &u.min_fee_ref_script_cost_per_byte,
    )
}

/// Adds those of the technical group.
fn push_technical(out: &mut Vec<u8>, begun: bool, u: &Update) -> Result<bool, NoMemory>
    ensures { IfOk result (Adds out.old.items begun (technical_fields u.now) out.new.items) }
{
    let begun = push_maybe(out, begun, "a0", &u.a0)?;
    let begun = push_maybe(out, begun, "eMax", &u.e_max)?;
    let begun = push_maybe(out, begun, "nOpt", &u.n_opt)?;
    let begun = push_maybe(out, begun, "costModels", &u.cost_models)?;
    push_maybe(out, begun, "collateralPercentage", &u.collateral_percentage)
}

/// Adds those of the governance group.
fn push_governance(out: &mut Vec<u8>, begun: bool, u: &Update) -> Result<bool, NoMemory>
    ensures { IfOk result (Adds out.old.items begun (governance_fields u.now) out.new.items) }
{
    let begun = push_maybe(
        out,
        begun,
        "poolVotingThresholds",
        &u.pool_voting_thresholds,
    )?;
    let begun = push_maybe(
        out,
        begun,
        "drepVotingThresholds",
        &u.drep_voting_thresholds,
    )?;
    let begun = push_maybe(out, begun, "govActionLifetime", &u.gov_action_lifetime)?;
    let begun = push_maybe(out, begun, "govActionDeposit", &u.gov_action_deposit)?;
    let begun = push_maybe(out, begun, "drepDeposit", &u.drep_deposit)?;
    let begun = push_maybe(out, begun, "drepActivity", &u.drep_activity)?;
    let begun = push_maybe(out, begun, "committeeMinSize", &u.committee_min_size)?;
    push_maybe(
        out,
        begun,
        "committeeMaxTermLength",
        &u.committee_max_term_length,
    )
}

/// Adds all groups.
fn push_groups(out: &mut Vec<u8>, u: &Update) -> Result<bool, NoMemory>
    ensures { IfOk result (Adds out.old.items false
        (network_fields u.now ++ economic_fields u.now ++ technical_fields u.now ++ governance_fields u.now) out.new.items) }
{
    let begun = push_network(out, false, u)?;
    let begun = push_economic(out, begun, u)?;
    let begun = push_technical(out, begun, u)?;
    push_governance(out, begun, u)
}

impl Json for Update {
    ghost use Rattle.text_forms.specs.ActionText.{update_json};

    ghost text = { update_json };

    fn push_json(&self, out: &mut Vec<u8>) -> Result<(), NoMemory> {
        out.push(b'{')?;
        push_groups(out, self)?;
        out.push(b'}')?;
        Ok(())
    }
}
