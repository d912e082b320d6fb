//! The state from which a pass starts.
ghost use Rattle.std.specs.Prelude.{◌≡◌, None, IfOk};
ghost use Rattle.gov_ids.specs.Orders.{credential_cmp};
ghost use Rattle.gov_model.specs.Enacted.{withdrawn_by};
ghost use Rattle.gov_model.specs.Sides.{members_of};
ghost use Rattle.maps.specs.Maps.{IsMap};

use crate::numbers::Numbers;
use crate::stop::Result;
use coin_frac::{Ratio, Unit};
use credential_list::CredentialList;
use enact::Enact;
use gov_actions::{Action, EnactState, LastIds};
use gov_ids::{ActionId, Credential, TxId};
use listed::Listed;
use pparams::Params;
use std::alloc::Global;

const NO_IDS: LastIds = LastIds {
    committee: None,
    constitution: None,
    hardfork: None,
    parameters: None,
};

fn no_ratio() -> Ratio {
    Ratio::new(0, 1).unwrap()
}

fn no_part() -> Unit {
    Unit::new(0, 1).unwrap()
}

// What a pass does not read is as in the plain program.
fn params(
    committee_min_size: u16,
    committee_max_term_length: u32,
    drep_voting_thresholds: [Unit; 10],
    pool_voting_thresholds: [Unit; 5],
    rate: Unit,
    none: Ratio,
) -> Params {
    Params {
        max_block_body_size: 90_112,
        max_tx_size: 16_384,
        max_block_header_size: 1_100,
        max_value_size: 5_000,
        max_tx_ex_units: (1_000, 1_000),
        max_block_ex_units: (1_000, 1_000),
        max_collateral_inputs: 3,
        min_fee_a: 0,
        min_fee_b: 0,
        key_deposit: 2,
        pool_deposit: 5,
        rho: rate,
        tau: rate,
        min_pool_cost: 0,
        coins_per_utxo_byte: 0,
        prices: (none, none),
        min_fee_ref_script_cost_per_byte: none,
        a0: none,
        e_max: 18,
        n_opt: 500,
        cost_models: [0; 32],
        collateral_percentage: 150,
        pool_voting_thresholds,
        drep_voting_thresholds,
        gov_action_lifetime: 2,
        gov_action_deposit: 10,
        drep_deposit: 5,
        drep_activity: 20,
        committee_min_size,
        committee_max_term_length,
    }
}

fn bare(
    params: Params,
    treasury: u64,
    version: (u32, u32),
    document: [u8; 32],
    script: Option<[u8; 28]>,
) -> EnactState
    ensures in_order { IsMap credential_cmp (members_of result.committee) }
{
    EnactState {
        params,
        version,
        committee: None,
        document,
        script,
        last: NO_IDS,
        treasury,
    }
}

fn committee(alloc: Global, members: Vec<(Credential, u64)>, threshold: Unit) -> Action
    ensures { withdrawn_by result ≡ 0 }
{
    Action::UpdateCommittee {
        previous: None,
        remove: CredentialList::new(alloc),
        add: Listed::from_vec(members),
        threshold,
    }
}

// The committee of these members, where there is none.
fn with_committee(
    alloc: Global,
    bare: EnactState,
    members: Vec<(Credential, u64)>,
    threshold: Unit,
) -> Result<EnactState>
    requires { IsMap credential_cmp (members_of bare.committee) }
    ensures { IfOk result (λ s. IsMap credential_cmp (members_of s.committee)) }
{
    let id = ActionId {
        tx: TxId([0; 32]),
        index: 0,
    };
    let action = committee(alloc, members, threshold);
    let applied = bare.apply(alloc, id, &action);
    drop(action);
    Ok(applied?)
}

fn last_ids(n: &mut Numbers) -> LastIds {
    LastIds {
        committee: n.previous(),
        constitution: n.previous(),
        hardfork: n.previous(),
        parameters: n.previous(),
    }
}

fn bare_start(n: &mut Numbers) -> EnactState
    ensures { IsMap credential_cmp (members_of result.committee) }
{
    let least = n.next_u16();
    let longest = n.next_u32();
    let dreps = n.dreps_thresholds();
    let pools = n.pools_thresholds();
    let params = params(least, longest, dreps, pools, no_part(), no_ratio());
    let treasury = n.next();
    let version = (n.next_u32(), n.next_u32());
    let document = [n.next_byte(); 32];
    bare(params, treasury, version, document, n.script())
}

// The committee that is read, where there is none.
fn seated(alloc: Global, bare: EnactState, n: &mut Numbers) -> Result<EnactState>
    requires { IsMap credential_cmp (members_of bare.committee) }
    ensures { IfOk result (λ s. IsMap credential_cmp (members_of s.committee)) }
{
    match n.pairs(alloc) {
        Ok(members) => with_committee(alloc, bare, members, n.unit()),
        Err(stop) => {
            drop(bare);
            Err(stop)
        }
    }
}

// Thresholds, treasury, constitution, the committee if there is one, and the last enacted ids.
pub(crate) fn start(alloc: Global, n: &mut Numbers) -> Result<EnactState>
    ensures { IfOk result (λ s. IsMap credential_cmp (members_of s.committee)) }
{
    let bare = bare_start(n);
    let mut state = if n.is_there() {
        seated(alloc, bare, n)?
    } else {
        bare
    };
    state.last = last_ids(n);
    Ok(state)
}
