ghost use Rattle.std.specs.Prelude.{◌≡◌, not};
ghost use Rattle.std.specs.List.{list_all, list_any};
ghost use Rattle.pparams.specs.Marks.{economic, governance, groups_of, is_well_formed, marks_of, network, technical, touches, touches_security};

use crate::{Groups, Update};

impl Update {
    /// Which groups it touches. (CIP-1694, Protocol parameter groups)
    pub fn groups(&self) -> Groups
        ensures { result ≡ groups_of self.now }
    {
        Groups {
            network: self.touches_network(),
            economic: self.touches_economic(),
            technical: self.touches_technical(),
            governance: self.touches_governance(),
        }
    }

    /// Whether it touches a parameter of the security group. (CIP-1694, Protocol parameter groups)
    #[tactic(auto, using(crate::proofs::Marked::security_touched))]
    pub fn security(&self) -> bool
        ensures { result ≡ touches_security self.now }
    {
        self.max_block_body_size.is_some()
            || self.max_tx_size.is_some()
            || self.max_block_header_size.is_some()
            || self.max_value_size.is_some()
            || self.max_block_ex_units.is_some()
            || self.min_fee_a.is_some()
            || self.min_fee_b.is_some()
            || self.coins_per_utxo_byte.is_some()
            || self.min_fee_ref_script_cost_per_byte.is_some()
            || self.gov_action_deposit.is_some()
    }

    /// Whether it names a parameter and sets none to a forbidden 0. (Own: which may not be 0)
    /// (Well-formedness of updates of the formal specification)
    pub fn well_formed(&self) -> bool
        ensures { result ≡ is_well_formed self.now }
    {
        self.names_some() && self.is_free_of_zeros()
    }

    #[tactic(auto, using(crate::proofs::Marked::touches_network))]
    fn touches_network(&self) -> bool
        ensures { result ≡ touches network self.now }
    {
        self.max_block_body_size.is_some()
            || self.max_tx_size.is_some()
            || self.max_block_header_size.is_some()
            || self.max_value_size.is_some()
            || self.max_tx_ex_units.is_some()
            || self.max_block_ex_units.is_some()
            || self.max_collateral_inputs.is_some()
    }

    #[tactic(auto, using(crate::proofs::Marked::touches_economic))]
    fn touches_economic(&self) -> bool
        ensures { result ≡ touches economic self.now }
    {
        self.min_fee_a.is_some()
            || self.min_fee_b.is_some()
            || self.key_deposit.is_some()
            || self.pool_deposit.is_some()
            || self.rho.is_some()
            || self.tau.is_some()
            || self.min_pool_cost.is_some()
            || self.coins_per_utxo_byte.is_some()
            || self.prices.is_some()
            || self.min_fee_ref_script_cost_per_byte.is_some()
    }

    #[tactic(auto, using(crate::proofs::Marked::touches_technical))]
    fn touches_technical(&self) -> bool
        ensures { result ≡ touches technical self.now }
    {
        self.a0.is_some()
            || self.e_max.is_some()
            || self.n_opt.is_some()
            || self.cost_models.is_some()
            || self.collateral_percentage.is_some()
    }

    #[tactic(auto, using(crate::proofs::Marked::touches_governance))]
    fn touches_governance(&self) -> bool
        ensures { result ≡ touches governance self.now }
    {
        self.pool_voting_thresholds.is_some()
            || self.drep_voting_thresholds.is_some()
            || self.gov_action_lifetime.is_some()
            || self.gov_action_deposit.is_some()
            || self.drep_deposit.is_some()
            || self.drep_activity.is_some()
            || self.committee_min_size.is_some()
            || self.committee_max_term_length.is_some()
    }

    #[tactic(auto, using(crate::proofs::Marked::names_by_groups))]
    fn names_some(&self) -> bool
        ensures { result ≡ list_any (λ m. m.named) (marks_of self.now) }
    {
        self.touches_network()
            || self.touches_economic()
            || self.touches_technical()
            || self.touches_governance()
    }

    /// Whether no parameter is set to 0 that may not be 0.
    #[tactic(auto, using(crate::proofs::Marked::zero_free, crate::proofs::Marked::is_zero))]
    fn is_free_of_zeros(&self) -> bool
        ensures { result ≡ list_all (λ m. not m.forbidden) (marks_of self.now) }
    {
        self.max_block_body_size != Some(0)
            && self.max_tx_size != Some(0)
            && self.max_block_header_size != Some(0)
            && self.max_value_size != Some(0)
            && self.pool_deposit != Some(0)
            && self.coins_per_utxo_byte != Some(0)
            && self.collateral_percentage != Some(0)
            && self.gov_action_lifetime != Some(0)
            && self.gov_action_deposit != Some(0)
            && self.drep_deposit != Some(0)
            && self.committee_max_term_length != Some(0)
    }
}
