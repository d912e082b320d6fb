//! All thirty parameters.
ghost use Rattle.std.specs.Prelude.{◌≡◌, Err, IfOk};
ghost use Rattle.byte_lines.specs.Faults.{CountsFaults};
ghost use Rattle.text_forms.specs.States.{are_params};
ghost use Rattle.text_model.specs.ParamLines.{param_lines};
ghost use Rattle.line_giver.specs.Giving.{PassesSome};
ghost use Rattle.param_kinds.specs.Parts.{params_from};
ghost use Rattle.param_kinds.specs.Runs.{ReadsLines};

use crate::fractions::{FiveUnits, RatioShare, TenUnits, TwoRatios, UnitShare};
use crate::named::At;
use crate::numbers::{Hash32, Number16, Number32, Number64, TwoNumbers};
use crate::run::LinesReader;
use byte_lines::LineFault;
use line_giver::LineGiver;
use pparams::Params;

/// The sizes.
type Sizes = (
    ((At<0, Number32>, At<1, Number32>), At<2, Number32>),
    At<3, Number32>,
);

/// The network group.
type Network = (
    ((Sizes, At<4, TwoNumbers>), At<5, TwoNumbers>),
    At<6, Number16>,
);

/// Fees and deposits.
type Fees = (
    ((At<7, Number64>, At<8, Number64>), At<9, Number64>),
    At<10, Number64>,
);

/// What goes to pools and to the treasury, and what a pool and an output need.
type Incomes = (
    (
        ((Fees, At<11, UnitShare>), At<12, UnitShare>),
        At<13, Number64>,
    ),
    At<14, Number64>,
);

/// The economic group.
type Economic = ((Incomes, At<15, TwoRatios>), At<16, RatioShare>);

/// The technical group.
type Technical = (
    (
        ((At<17, RatioShare>, At<18, Number32>), At<19, Number16>),
        At<20, Hash32>,
    ),
    At<21, Number16>,
);

/// The thresholds, and what a proposal and a DRep pay.
type Deposits = (
    (
        ((At<22, FiveUnits>, At<23, TenUnits>), At<24, Number32>),
        At<25, Number64>,
    ),
    At<26, Number64>,
);

/// The governance group.
type Governance = (
    ((Deposits, At<27, Number32>), At<28, Number16>),
    At<29, Number32>,
);

/// All groups.
type All = (((Network, Economic), Technical), Governance);

/// The parameters of these parts.
fn params_of(all: <All as LinesReader>::Item) -> Params
    ensures { result ≡ params_from all }
{
    let (groups, governance) = all;
    let (groups, technical) = groups;
    let (network, economic) = groups;
    let (((sizes, max_tx_ex_units), max_block_ex_units), max_collateral_inputs) = network;
    let (((max_block_body_size, max_tx_size), max_block_header_size), max_value_size) = sizes;
    let ((incomes, prices), min_fee_ref_script_cost_per_byte) = economic;
    let ((((fees, rho), tau), min_pool_cost), coins_per_utxo_byte) = incomes;
    let (((min_fee_a, min_fee_b), key_deposit), pool_deposit) = fees;
    let (technical, collateral_percentage) = technical;
    let (technical, cost_models) = technical;
    let ((a0, e_max), n_opt) = technical;
    let (governance, committee_max_term_length) = governance;
    let (governance, committee_min_size) = governance;
    let (deposits, drep_activity) = governance;
    let (deposits, drep_deposit) = deposits;
    let (deposits, gov_action_deposit) = deposits;
    let (thresholds, gov_action_lifetime) = deposits;
    let (pool_voting_thresholds, drep_voting_thresholds) = thresholds;
    Params {
        max_block_body_size,
        max_tx_size,
        max_block_header_size,
        max_value_size,
        max_tx_ex_units,
        max_block_ex_units,
        max_collateral_inputs,
        min_fee_a,
        min_fee_b,
        key_deposit,
        pool_deposit,
        rho,
        tau,
        min_pool_cost,
        coins_per_utxo_byte,
        prices,
        min_fee_ref_script_cost_per_byte,
        a0,
        e_max,
        n_opt,
        cost_models,
        collateral_percentage,
        pool_voting_thresholds,
        drep_voting_thresholds,
        gov_action_lifetime,
        gov_action_deposit,
        drep_deposit,
        drep_activity,
        committee_min_size,
        committee_max_term_length,
    }
}

/// Reads the lines of the parameters, in order, and passes them. The buffer loses what it held.
/// Where they are not such lines, those before the first other one are passed. (Own)
pub fn read_params<G: LineGiver>(
    giver: &mut G,
    text: &mut Vec<u8>,
) -> Result<Option<Params>, LineFault>
    ensures reads { IfOk result (ReadsLines are_params param_lines
        (G.passed giver.old) (G.passed giver.new) (G.giving giver.old) (G.giving giver.new)) }
    ensures passes { PassesSome (G.passed giver.old) (G.passed giver.new) (G.giving giver.old) (G.giving giver.new) }
    ensures over { result ≡ Err LineFault.TooMuch → G.IsOver giver.new }
    ensures counts { CountsFaults (result ≡ Err LineFault.ReadFault) (G.faults giver.old) (G.faults giver.new) }
{
    match <All as LinesReader>::read::<G>(giver, text)? {
        Some(all) => Ok(Some(params_of(all))),
        None => Ok(None),
    }
}
