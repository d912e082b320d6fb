//! The protocol parameters, and updates of them.
#![tactic(auto)]

mod marks;
mod overlay;

pub use coin_frac as of_coin_frac;
use coin_frac::{Ratio, Unit};

/// The protocol parameters. Those that no rule here reads are kept and printed.
/// (CIP-1694, Protocol parameter groups; PParams of the formal specification)
#[derive(Clone, Copy, Debug)]
pub struct Params {
    /// Bytes; kept and not tested.
    pub max_block_body_size: u32,
    /// Bytes.
    pub max_tx_size: u32,
    /// Bytes; kept and not tested.
    pub max_block_header_size: u32,
    /// Bytes of an output's value; kept and not tested.
    pub max_value_size: u32,
    /// Memory and steps; kept and not tested.
    pub max_tx_ex_units: (u64, u64),
    /// Memory and steps; kept and not tested.
    pub max_block_ex_units: (u64, u64),
    /// The greatest number of collateral inputs of a transaction.
    pub max_collateral_inputs: u16,
    /// Lovelace per byte of a transaction.
    pub min_fee_a: u64,
    /// Lovelace per transaction.
    pub min_fee_b: u64,
    /// Lovelace per account.
    pub key_deposit: u64,
    /// Lovelace per pool.
    pub pool_deposit: u64,
    /// Kept and not used: reward updates come from outside.
    pub rho: Unit,
    /// Kept and not used.
    pub tau: Unit,
    /// The least cost of a pool, in lovelace an epoch.
    pub min_pool_cost: u64,
    /// Lovelace that an output must hold per byte.
    pub coins_per_utxo_byte: u64,
    /// Kept and not used: script fees come from outside.
    pub prices: (Ratio, Ratio),
    /// Kept and not used.
    pub min_fee_ref_script_cost_per_byte: Ratio,
    /// Kept and not used.
    pub a0: Ratio,
    /// The greatest number of epochs from now to a pool's retirement.
    pub e_max: u32,
    /// Kept and not used.
    pub n_opt: u16,
    /// A hash instead of the cost models.
    pub cost_models: [u8; 32],
    /// The part of the fee that the collateral must cover, in hundredths.
    pub collateral_percentage: u16,
    /// Q1, Q2a, Q2b, Q4, Q5 of CIP-1694: motion of no confidence, committee in the normal state,
    /// committee in a state of no confidence, hard fork, security parameters.
    pub pool_voting_thresholds: [Unit; 5],
    /// P1, P2a, P2b, P3, P4, P5a to P5d, P6 of CIP-1694.
    pub drep_voting_thresholds: [Unit; 10],
    /// Epochs.
    pub gov_action_lifetime: u32,
    /// Lovelace per proposal.
    pub gov_action_deposit: u64,
    /// Lovelace per DRep.
    pub drep_deposit: u64,
    /// Epochs for which a DRep stays active after it acted.
    pub drep_activity: u32,
    /// The least number of active members.
    pub committee_min_size: u16,
    /// The greatest term of a new member, in epochs from the pass on.
    pub committee_max_term_length: u32,
}

/// An update of the parameters: each parameter that it names is replaced whole.
/// (PParamsUpdate of the formal specification)
#[derive(Clone, Copy, Debug)]
pub struct Update {
    pub max_block_body_size: Option<u32>,
    pub max_tx_size: Option<u32>,
    pub max_block_header_size: Option<u32>,
    pub max_value_size: Option<u32>,
    pub max_tx_ex_units: Option<(u64, u64)>,
    pub max_block_ex_units: Option<(u64, u64)>,
    pub max_collateral_inputs: Option<u16>,
    pub min_fee_a: Option<u64>,
    pub min_fee_b: Option<u64>,
    pub key_deposit: Option<u64>,
    pub pool_deposit: Option<u64>,
    pub rho: Option<Unit>,
    pub tau: Option<Unit>,
    pub min_pool_cost: Option<u64>,
    pub coins_per_utxo_byte: Option<u64>,
    pub prices: Option<(Ratio, Ratio)>,
    pub min_fee_ref_script_cost_per_byte: Option<Ratio>,
    pub a0: Option<Ratio>,
    pub e_max: Option<u32>,
    pub n_opt: Option<u16>,
    pub cost_models: Option<[u8; 32]>,
    pub collateral_percentage: Option<u16>,
    pub pool_voting_thresholds: Option<[Unit; 5]>,
    pub drep_voting_thresholds: Option<[Unit; 10]>,
    pub gov_action_lifetime: Option<u32>,
    pub gov_action_deposit: Option<u64>,
    pub drep_deposit: Option<u64>,
    pub drep_activity: Option<u32>,
    pub committee_min_size: Option<u16>,
    pub committee_max_term_length: Option<u32>,
}

impl Update {
    /// An update that names no parameter.
    pub const EMPTY: Update = Update {
        max_block_body_size: None,
        max_tx_size: None,
        max_block_header_size: None,
        max_value_size: None,
        max_tx_ex_units: None,
        max_block_ex_units: None,
        max_collateral_inputs: None,
        min_fee_a: None,
        min_fee_b: None,
        key_deposit: None,
        pool_deposit: None,
        rho: None,
        tau: None,
        min_pool_cost: None,
        coins_per_utxo_byte: None,
        prices: None,
        min_fee_ref_script_cost_per_byte: None,
        a0: None,
        e_max: None,
        n_opt: None,
        cost_models: None,
        collateral_percentage: None,
        pool_voting_thresholds: None,
        drep_voting_thresholds: None,
        gov_action_lifetime: None,
        gov_action_deposit: None,
        drep_deposit: None,
        drep_activity: None,
        committee_min_size: None,
        committee_max_term_length: None,
    };
}

/// Which groups of parameters an update touches. (CIP-1694, Protocol parameter groups)
#[derive(Clone, Copy, Debug, PartialEq, Eq)]
pub struct Groups {
    pub network: bool,
    pub economic: bool,
    pub technical: bool,
    pub governance: bool,
}
