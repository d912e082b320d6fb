//! Parameters and actions of a stream, and what they read as, as `Debug` prints them.
use action_read::{read_action, read_params, read_update};
use coin_frac::{Ratio, Unit};
use json_fields::FieldFault;
use json_tree::{Scratch, read_value};
use std::test::Fail;

/// Each parameter with a value of its own.
pub const PARAMS: &str =
    r#"{"maxBlockBodySize":1,"maxTxSize":2,"maxBlockHeaderSize":3,"maxValueSize":4,"maxTxExUnits":[5,6],"maxBlockExUnits":[7,8],"maxCollateralInputs":9,"minFeeA":10,"minFeeB":11,"keyDeposit":12,"poolDeposit":13,"rho":[14,15],"tau":[1,5],"minPoolCost":16,"coinsPerUTxOByte":17,"prices":[[577,10000],[721,10]],"minFeeRefScriptCostPerByte":[15,1],"a0":[3,10],"eMax":18,"nOpt":500,"costModels":"1818181818181818181818181818181818181818181818181818181818181818","collateralPercentage":150,"poolVotingThresholds":[[0,1],[1,2],[2,3],[3,4],[1,1]],"drepVotingThresholds":[[1,1],[1,2],[1,3],[1,4],[1,5],[1,6],[1,7],[1,8],[1,9],[1,10]],"govActionLifetime":19,"govActionDeposit":20,"drepDeposit":21,"drepActivity":22,"committeeMinSize":23,"committeeMaxTermLength":24}"#;

/// These parameters as they print.
const PRINTED: &str =
    "Params { max_block_body_size: 1, max_tx_size: 2, max_block_header_size: 3, max_value_size: 4, max_tx_ex_units: (5, 6), max_block_ex_units: (7, 8), max_collateral_inputs: 9, min_fee_a: 10, min_fee_b: 11, key_deposit: 12, pool_deposit: 13, rho: Unit { num: 14, den: 15 }, tau: Unit { num: 1, den: 5 }, min_pool_cost: 16, coins_per_utxo_byte: 17, prices: (Ratio { num: 577, den: 10000 }, Ratio { num: 721, den: 10 }), min_fee_ref_script_cost_per_byte: Ratio { num: 15, den: 1 }, a0: Ratio { num: 3, den: 10 }, e_max: 18, n_opt: 500, cost_models: [24, 24, 24, 24, 24, 24, 24, 24, 24, 24, 24, 24, 24, 24, 24, 24, 24, 24, 24, 24, 24, 24, 24, 24, 24, 24, 24, 24, 24, 24, 24, 24], collateral_percentage: 150, pool_voting_thresholds: [Unit { num: 0, den: 1 }, Unit { num: 1, den: 2 }, Unit { num: 2, den: 3 }, Unit { num: 3, den: 4 }, Unit { num: 1, den: 1 }], drep_voting_thresholds: [Unit { num: 1, den: 1 }, Unit { num: 1, den: 2 }, Unit { num: 1, den: 3 }, Unit { num: 1, den: 4 }, Unit { num: 1, den: 5 }, Unit { num: 1, den: 6 }, Unit { num: 1, den: 7 }, Unit { num: 1, den: 8 }, Unit { num: 1, den: 9 }, Unit { num: 1, den: 10 }], gov_action_lifetime: 19, gov_action_deposit: 20, drep_deposit: 21, drep_activity: 22, committee_min_size: 23, committee_max_term_length: 24 }";

#[test]
fn reads_params(rt: HostRuntime) -> Result<(), Fail> {
    let mut scratch = Scratch::new(rt.alloc());
    let value = read_value(rt.alloc(), &mut scratch, PARAMS.as_bytes())?;
    let value = value.ok_or(FieldFault::WrongKind)?;
    let params = read_params(rt.alloc(), &value)?;
    assert!(rt; params.rho == Unit::new(14, 15)? && params.a0 == Ratio::new(3, 10)?);
    let text = format!(in rt.alloc(); "{params:?}")?;
    assert!(rt; text.as_str() == PRINTED, "{text}");
    Ok(())
}

#[test]
fn reads_updates(rt: HostRuntime) -> Result<(), Fail> {
    let mut scratch = Scratch::new(rt.alloc());
    let value = read_value(
        rt.alloc(),
        &mut scratch,
        r#"{"minFeeA":44,"a0":[9,1],"nOpt":null}"#.as_bytes(),
    )?;
    let value = value.ok_or(FieldFault::WrongKind)?;
    assert!(rt; read_params(rt.alloc(), &value).err() == Some(FieldFault::Missing));
    let update = read_update(rt.alloc(), &value)?;
    assert!(rt;
        update.min_fee_a == Some(44) && update.min_fee_b.is_none() && update.n_opt.is_none()
    );
    Ok(())
}

pub const COMMITTEE: &str =
    r#"{"type":"UpdateCommittee","previous":"000000000000000000000000000000000000000000000000000000000000001f#3","remove":["k0000000000000000000000000000000000000000000000000000001f"],"add":[["s0000000000000000000000000000000000000000000000000000001f",9]],"threshold":[2,3]}"#;

pub const WITHDRAWALS: &str =
    r#"{"type":"TreasuryWithdrawals","targets":[["1k0000000000000000000000000000000000000000000000000000001f",5]],"policy":"0000000000000000000000000000000000000000000000000000001f"}"#;

/// Both as they print: 1f is 31.
const COMMITTEE_PRINTED: &str =
    "UpdateCommittee { previous: Some(ActionId { tx: TxId([0, 0, 0, 0, 0, 0, 0, 0, 0, 0, 0, 0, 0, 0, 0, 0, 0, 0, 0, 0, 0, 0, 0, 0, 0, 0, 0, 0, 0, 0, 0, 31]), index: 3 }), remove: CredentialList { items: [Credential { hash: [0, 0, 0, 0, 0, 0, 0, 0, 0, 0, 0, 0, 0, 0, 0, 0, 0, 0, 0, 0, 0, 0, 0, 0, 0, 0, 0, 31], kind: Key }], set: None }, add: Listed { items: [(Credential { hash: [0, 0, 0, 0, 0, 0, 0, 0, 0, 0, 0, 0, 0, 0, 0, 0, 0, 0, 0, 0, 0, 0, 0, 0, 0, 0, 0, 31], kind: Script }, 9)] }, threshold: Unit { num: 2, den: 3 } }";

const WITHDRAWALS_PRINTED: &str =
    "TreasuryWithdrawals { targets: Listed { items: [(Account { network: 1, cred: Credential { hash: [0, 0, 0, 0, 0, 0, 0, 0, 0, 0, 0, 0, 0, 0, 0, 0, 0, 0, 0, 0, 0, 0, 0, 0, 0, 0, 0, 31], kind: Key } }, 5)] }, policy: Some([0, 0, 0, 0, 0, 0, 0, 0, 0, 0, 0, 0, 0, 0, 0, 0, 0, 0, 0, 0, 0, 0, 0, 0, 0, 0, 0, 31]) }";

#[test]
fn reads_actions(rt: HostRuntime) -> Result<(), Fail> {
    for (text, printed) in [
        (COMMITTEE, COMMITTEE_PRINTED),
        (WITHDRAWALS, WITHDRAWALS_PRINTED),
    ] {
        let mut scratch = Scratch::new(rt.alloc());
        let value = read_value(rt.alloc(), &mut scratch, text.as_bytes())?;
        let value = value.ok_or(FieldFault::WrongKind)?;
        let action = read_action(rt.alloc(), &value)?;
        let found = format!(in rt.alloc(); "{action:?}")?;
        assert!(rt; found.as_str() == printed, "{found}");
    }
    Ok(())
}
