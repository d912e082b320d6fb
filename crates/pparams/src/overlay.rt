ghost use Rattle.std.specs.Prelude.{◌≡◌};
ghost use Rattle.pparams.specs.Overlay.{laid_over};

use crate::{Params, Update};

impl Params {
    /// The parameters after an update: each named one is replaced whole, the others stay.
    /// (PParamsUpdate of the formal specification)
    pub fn laid_over(&self, u: &Update) -> Params
        ensures { result ≡ laid_over self.now u.now }
    {
        Params {
            max_block_body_size: u.max_block_body_size.unwrap_or(self.max_block_body_size),
            max_tx_size: u.max_tx_size.unwrap_or(self.max_tx_size),
            max_block_header_size: u
                .max_block_header_size
                .unwrap_or(self.max_block_header_size),
            max_value_size: u.max_value_size.unwrap_or(self.max_value_size),
            max_tx_ex_units: u.max_tx_ex_units.unwrap_or(self.max_tx_ex_units),
            max_block_ex_units: u.max_block_ex_units.unwrap_or(self.max_block_ex_units),
            max_collateral_inputs: u
                .max_collateral_inputs
                .unwrap_or(self.max_collateral_inputs),
            min_fee_a: u.min_fee_a.unwrap_or(self.min_fee_a),
            min_fee_b: u.min_fee_b.unwrap_or(self.min_fee_b),
            key_deposit: u.key_deposit.unwrap_or(self.key_deposit),
            pool_deposit: u.pool_deposit.unwrap_or(self.pool_deposit),
            rho: u.rho.unwrap_or(self.rho),
            tau: u.tau.unwrap_or(self.tau),
            min_pool_cost: u.min_pool_cost.unwrap_or(self.min_pool_cost),
            coins_per_utxo_byte: u.coins_per_utxo_byte.unwrap_or(self.coins_per_utxo_byte),
            prices: u.prices.unwrap_or(self.prices),
            min_fee_ref_script_cost_per_byte: u
                .min_fee_ref_script_cost_per_byte
                .unwrap_or(self.min_fee_ref_script_cost_per_byte),
            a0: u.a0.unwrap_or(self.a0),
            e_max: u.e_max.unwrap_or(self.e_max),
            n_opt: u.n_opt.unwrap_or(self.n_opt),
            cost_models: u.cost_models.unwrap_or(self.cost_models),
            collateral_percentage: u
                .collateral_percentage
                .unwrap_or(self.collateral_percentage),
            pool_voting_thresholds: u
                .pool_voting_thresholds
                .unwrap_or(self.pool_voting_thresholds),
            drep_voting_thresholds: u
                .drep_voting_thresholds
                .unwrap_or(self.drep_voting_thresholds),
            gov_action_lifetime: u.gov_action_lifetime.unwrap_or(self.gov_action_lifetime),
            gov_action_deposit: u.gov_action_deposit.unwrap_or(self.gov_action_deposit),
            drep_deposit: u.drep_deposit.unwrap_or(self.drep_deposit),
            drep_activity: u.drep_activity.unwrap_or(self.drep_activity),
            committee_min_size: u.committee_min_size.unwrap_or(self.committee_min_size),
            committee_max_term_length: u
                .committee_max_term_length
                .unwrap_or(self.committee_max_term_length),
        }
    }
}
