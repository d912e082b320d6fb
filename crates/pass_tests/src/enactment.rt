//! What each action changes, and that it changes nothing else that the tests compare.
ghost use Rattle.std.specs.Prelude.{◌≡◌, ◌≤◌, IfOk};
ghost use Rattle.gov_ids.specs.Orders.{credential_cmp};
ghost use Rattle.gov_model.specs.Enacted.{withdrawn_by};
ghost use Rattle.gov_model.specs.Sides.{members_of};
ghost use Rattle.maps.specs.Maps.{IsMap};

use coin_frac::{Ratio, Unit};
use credential_list::CredentialList;
use enact::Enact;
use gov_actions::{Action, EnactState, LastIds};
use gov_ids::{Account, ActionId, CredKind, Credential, TxId};
use listed::Listed;
use pparams::{Params, Update};
use std::alloc::Global;
use std::process::Abort;
use std::test::Fail;

fn params(half: Unit, one: Ratio) -> Params {
    Params {
        max_block_body_size: 90_112,
        max_tx_size: 16_384,
        max_block_header_size: 1_100,
        max_value_size: 5_000,
        max_tx_ex_units: (14_000_000, 10_000_000_000),
        max_block_ex_units: (62_000_000, 20_000_000_000),
        max_collateral_inputs: 3,
        min_fee_a: 44,
        min_fee_b: 155_381,
        key_deposit: 2_000_000,
        pool_deposit: 500_000_000,
        rho: half,
        tau: half,
        min_pool_cost: 170_000_000,
        coins_per_utxo_byte: 4_310,
        prices: (one, one),
        min_fee_ref_script_cost_per_byte: one,
        a0: one,
        e_max: 18,
        n_opt: 500,
        cost_models: [0; 32],
        collateral_percentage: 150,
        pool_voting_thresholds: [half; 5],
        drep_voting_thresholds: [half; 10],
        gov_action_lifetime: 6,
        gov_action_deposit: 100_000_000_000,
        drep_deposit: 500_000_000,
        drep_activity: 20,
        committee_min_size: 7,
        committee_max_term_length: 146,
    }
}

// No committee, no action enacted, a treasury of 100.
fn bare(params: Params) -> EnactState
    ensures treasury { result.treasury ≡ 100 }
    ensures in_order { IsMap credential_cmp (members_of result.committee) }
{
    EnactState {
        params,
        version: (9, 0),
        committee: None,
        document: [1; 32],
        script: Some([1; 28]),
        last: LastIds {
            committee: None,
            constitution: None,
            hardfork: None,
            parameters: None,
        },
        treasury: 100,
    }
}

fn id(byte: u8) -> ActionId {
    ActionId {
        tx: TxId([byte; 32]),
        index: 0,
    }
}

fn key(byte: u8) -> Credential {
    Credential {
        hash: [byte; 28],
        kind: CredKind::Key,
    }
}

fn account(byte: u8) -> Account {
    Account {
        network: 1,
        cred: key(byte),
    }
}

fn committee(
    alloc: Global,
    remove: &[Credential],
    add: &[(Credential, u64)],
    threshold: Unit,
) -> Result<Action, Fail>
    ensures { IfOk result (λ a. withdrawn_by a ≡ 0) }
{
    Ok(Action::UpdateCommittee {
        previous: None,
        remove: CredentialList::from_vec(alloc, remove.to_vec(alloc)?)?,
        add: Listed::from_vec(add.to_vec(alloc)?),
        threshold,
    })
}

fn withdrawal(alloc: Global) -> Result<Action, Fail>
    ensures { IfOk result (λ a. withdrawn_by a ≡ 42) }
{
    Ok(Action::TreasuryWithdrawals {
        targets: Listed::from_vec([(account(1), 30), (account(2), 12)].to_vec(alloc)?),
        policy: None,
    })
}

fn change() -> Action
    ensures { withdrawn_by result ≡ 0 }
{
    Action::ParameterChange {
        previous: None,
        update: Update {
            min_fee_a: Some(45),
            ..Update::EMPTY
        },
        policy: None,
    }
}

// An action of each type, by its number in order of priority.
fn action(alloc: Global, kind: u8) -> Result<Action, Fail>
    ensures { IfOk result (λ a. withdrawn_by a ≤ 100) }
{
    match kind {
        0 => Ok(Action::NoConfidence { previous: None }),
        1 => committee(
            alloc,
            &[key(1), key(3)],
            &[(key(3), 30), (key(2), 25)],
            Unit::new(2, 3)?,
        ),
        2 => Ok(Action::NewConstitution {
            previous: None,
            document: [2; 32],
            script: None,
        }),
        3 => Ok(Action::HardForkInitiation {
            previous: None,
            version: (10, 0),
        }),
        4 => Ok(change()),
        5 => withdrawal(alloc),
        _ => Ok(Action::Info),
    }
}

// Two members, whom an action of id 6 enacted.
fn start(rt: &impl Abort, alloc: Global) -> Result<EnactState, Fail>
    ensures treasury { IfOk result (λ s. s.treasury ≡ 100) }
    ensures in_order { IfOk result (λ s. IsMap credential_cmp (members_of s.committee)) }
{
    let half = Unit::new(1, 2)?;
    let one = Ratio::new(1, 1)?;
    let members = committee(alloc, &[], &[(key(2), 20), (key(1), 10)], half)?;
    let state = bare(params(half, one)).apply(alloc, id(6), &members)?;
    assert!(rt; state.treasury == 100);
    Ok(state)
}

// The treasury, the version, the constitution with its script, and two parameters.
fn held(s: &EnactState) -> [u64; 6] {
    let script = s.script.map_or(0, |script| script[0]);
    [
        s.treasury,
        u64::from(s.version.0),
        u64::from(s.document[0]),
        u64::from(script),
        s.params.min_fee_a,
        s.params.min_fee_b,
    ]
}

fn term(s: &EnactState, byte: u8) -> u64 {
    let Some(committee) = &s.committee else {
        return 0;
    };
    let cold = key(byte);
    for (member, term) in committee.members.as_slice() {
        if *member == cold {
            return *term;
        }
    }
    0
}

// The denominator of the threshold, and the terms of three cold keys; 0 where there is none.
fn committee_of(s: &EnactState) -> [u64; 4] {
    let below = s.committee.as_ref().map_or(0, |c| c.threshold.den());
    [below, term(s, 1), term(s, 2), term(s, 3)]
}

fn byte(id: Option<ActionId>) -> u8 {
    id.map_or(0, |id| id.tx.0[0])
}

// The bytes of the last enacted ids.
fn last(s: &EnactState) -> [u8; 4] {
    let last = s.last;
    [
        byte(last.committee),
        byte(last.constitution),
        byte(last.hardfork),
        byte(last.parameters),
    ]
}

#[test]
fn each_action_changes_what_it_names(rt: HostRuntime) -> Result<(), Fail> {
    let rows = [
        (0, [100, 9, 1, 1, 44, 155_381], [0, 0, 0, 0], [7, 0, 0, 0]),
        (1, [100, 9, 1, 1, 44, 155_381], [3, 0, 25, 30], [7, 0, 0, 0]),
        (2, [100, 9, 2, 0, 44, 155_381], [2, 10, 20, 0], [6, 7, 0, 0]),
        (
            3,
            [100, 10, 1, 1, 44, 155_381],
            [2, 10, 20, 0],
            [6, 0, 7, 0],
        ),
        (4, [100, 9, 1, 1, 45, 155_381], [2, 10, 20, 0], [6, 0, 0, 7]),
        (5, [58, 9, 1, 1, 44, 155_381], [2, 10, 20, 0], [6, 0, 0, 0]),
        (6, [100, 9, 1, 1, 44, 155_381], [2, 10, 20, 0], [6, 0, 0, 0]),
    ];
    for (kind, wanted, members, ids) in rows {
        let action = action(rt.alloc(), kind)?;
        let after = start(&rt, rt.alloc())?.apply(rt.alloc(), id(7), &action)?;
        assert_eq!(rt; held(&after), wanted, "at {kind}");
        assert_eq!(rt; committee_of(&after), members, "at {kind}");
        assert_eq!(rt; last(&after), ids, "at {kind}");
    }
    Ok(())
}
