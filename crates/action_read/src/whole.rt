//! All parameters from an update that names each of them, a group at a time.
ghost use Rattle.std.specs.Prelude.{◌≡◌};
ghost use Rattle.action_read.specs.Whole.{network_params_of, fee_params_of, income_params_of, technical_params_of, governance_params_of, params_of_update};

use coin_frac::{Ratio, Unit};
use pparams::{Params, Update};

/// The parameters of the network group.
#[derive(Clone, Copy)]
struct NetworkParams {
    max_block_body_size: u32,
    max_tx_size: u32,
    max_block_header_size: u32,
    max_value_size: u32,
    max_tx_ex_units: (u64, u64),
    max_block_ex_units: (u64, u64),
    max_collateral_inputs: u16,
}

/// The fees and deposits of the economic group.
#[derive(Clone, Copy)]
struct FeeParams {
    min_fee_a: u64,
    min_fee_b: u64,
    key_deposit: u64,
    pool_deposit: u64,
}

/// The other parameters of the economic group.
#[derive(Clone, Copy)]
struct IncomeParams {
    rho: Unit,
    tau: Unit,
    min_pool_cost: u64,
    coins_per_utxo_byte: u64,
    prices: (Ratio, Ratio),
    min_fee_ref_script_cost_per_byte: Ratio,
}

/// Those of the technical group.
#[derive(Clone, Copy)]
struct TechnicalParams {
    a0: Ratio,
    e_max: u32,
    n_opt: u16,
    cost_models: [u8; 32],
    collateral_percentage: u16,
}

/// Those of the governance group beside the thresholds of votes.
#[derive(Clone, Copy)]
struct GovernanceParams {
    gov_action_lifetime: u32,
    gov_action_deposit: u64,
    drep_deposit: u64,
    drep_activity: u32,
    committee_min_size: u16,
    committee_max_term_length: u32,
}

#[tactic(auto, unfolding(crate::specs::Whole::network_params_of))]
fn network_params_of(update: &Update) -> Option<NetworkParams>
    ensures { result ≡ network_params_of update.now }
{
    Some(NetworkParams {
        max_block_body_size: update.max_block_body_size?,
        max_tx_size: update.max_tx_size?,
        max_block_header_size: update.max_block_header_size?,
        max_value_size: update.max_value_size?,
        max_tx_ex_units: update.max_tx_ex_units?,
        max_block_ex_units: update.max_block_ex_units?,
        max_collateral_inputs: update.max_collateral_inputs?,
    })
}

#[tactic(auto, unfolding(crate::specs::Whole::fee_params_of))]
fn fee_params_of(update: &Update) -> Option<FeeParams>
    ensures { result ≡ fee_params_of update.now }
{
    Some(FeeParams {
        min_fee_a: update.min_fee_a?,
        min_fee_b: update.min_fee_b?,
        key_deposit: update.key_deposit?,
        pool_deposit: update.pool_deposit?,
    })
}

#[tactic(auto, unfolding(crate::specs::Whole::income_params_of))]
fn income_params_of(update: &Update) -> Option<IncomeParams>
    ensures { result ≡ income_params_of update.now }
{
    Some(IncomeParams {
        rho: update.rho?,
        tau: update.tau?,
        min_pool_cost: update.min_pool_cost?,
        coins_per_utxo_byte: update.coins_per_utxo_byte?,
        prices: update.prices?,
        min_fee_ref_script_cost_per_byte: update.min_fee_ref_script_cost_per_byte?,
    })
}

#[tactic(auto, unfolding(crate::specs::Whole::technical_params_of))]
fn technical_params_of(update: &Update) -> Option<TechnicalParams>
    ensures { result ≡ technical_params_of update.now }
{
    Some(TechnicalParams {
        a0: update.a0?,
        e_max: update.e_max?,
        n_opt: update.n_opt?,
        cost_models: update.cost_models?,
        collateral_percentage: update.collateral_percentage?,
    })
}

#[tactic(auto, unfolding(crate::specs::Whole::governance_params_of))]
fn governance_params_of(update: &Update) -> Option<GovernanceParams>
    ensures { result ≡ governance_params_of update.now }
{
    Some(GovernanceParams {
        gov_action_lifetime: update.gov_action_lifetime?,
        gov_action_deposit: update.gov_action_deposit?,
        drep_deposit: update.drep_deposit?,
        drep_activity: update.drep_activity?,
        committee_min_size: update.committee_min_size?,
        committee_max_term_length: update.committee_max_term_length?,
    })
}

/// The parameters that the update names, where it names each of them.
#[tactic(auto, unfolding(crate::specs::Whole::params_of_update))]
pub fn params_of_update(update: Update) -> Option<Params>
    ensures { result ≡ params_of_update update }
{
    let network = network_params_of(&update)?;
    let fee = fee_params_of(&update)?;
    let income = income_params_of(&update)?;
    let technical = technical_params_of(&update)?;
    let governance = governance_params_of(&update)?;
    Some(Params {
        max_block_body_size: network.max_block_body_size,
        max_tx_size: network.max_tx_size,
        max_block_header_size: network.max_block_header_size,
        max_value_size: network.max_value_size,
        max_tx_ex_units: network.max_tx_ex_units,
        max_block_ex_units: network.max_block_ex_units,
        max_collateral_inputs: network.max_collateral_inputs,
        min_fee_a: fee.min_fee_a,
        min_fee_b: fee.min_fee_b,
        key_deposit: fee.key_deposit,
        pool_deposit: fee.pool_deposit,
        rho: income.rho,
        tau: income.tau,
        min_pool_cost: income.min_pool_cost,
        coins_per_utxo_byte: income.coins_per_utxo_byte,
        prices: income.prices,
        min_fee_ref_script_cost_per_byte: income.min_fee_ref_script_cost_per_byte,
        a0: technical.a0,
        e_max: technical.e_max,
        n_opt: technical.n_opt,
        cost_models: technical.cost_models,
        collateral_percentage: technical.collateral_percentage,
        pool_voting_thresholds: update.pool_voting_thresholds?,
        drep_voting_thresholds: update.drep_voting_thresholds?,
        gov_action_lifetime: governance.gov_action_lifetime,
        gov_action_deposit: governance.gov_action_deposit,
        drep_deposit: governance.drep_deposit,
        drep_activity: governance.drep_activity,
        committee_min_size: governance.committee_min_size,
        committee_max_term_length: governance.committee_max_term_length,
    })
}
