//! Short lines, and what they read as.
use record_read::{RecordFault, read_record};
use std::test::Fail;
use tx_records::{FieldName, Record, What};

/// A genesis with a pool, up to its key.
pub const GENESIS: &str =
    r#"{"kind":"genesis","network":1,"slot":0,"epochLength":10,"version":[10,0],"supply":9,"reserves":9,"treasury":0,"params":{"maxBlockBodySize":90112,"maxTxSize":16384,"maxBlockHeaderSize":1100,"maxValueSize":5000,"maxTxExUnits":[1000,1000],"maxBlockExUnits":[1000,1000],"maxCollateralInputs":3,"minFeeA":1,"minFeeB":70,"keyDeposit":2,"poolDeposit":5,"rho":[0,1],"tau":[0,1],"minPoolCost":0,"coinsPerUTxOByte":1,"prices":[[0,1],[0,1]],"minFeeRefScriptCostPerByte":[15,1],"a0":[0,1],"eMax":18,"nOpt":500,"costModels":"0000000000000000000000000000000000000000000000000000000000000000","collateralPercentage":150,"poolVotingThresholds":[[0,1],[0,1],[0,1],[0,1],[0,1]],"drepVotingThresholds":[[67,100],[67,100],[67,100],[67,100],[67,100],[67,100],[67,100],[67,100],[67,100],[67,100]],"govActionLifetime":2,"govActionDeposit":10,"drepDeposit":5,"drepActivity":20,"committeeMinSize":0,"committeeMaxTermLength":100},"document":"dddddddddddddddddddddddddddddddddddddddddddddddddddddddddddddddd","committee":{"threshold":[2,3],"members":[["keeeeeeeeeeeeeeeeeeeeeeeeeeeeeeeeeeeeeeeeeeeeeeeeeeeeeeee",100,null]]},"outputs":[],"accounts":[],"pools":[["0000000000000000000000000000000000000000000000000000001f",5,0,0,[0,1],"1k0000000000000000000000000000000000000000000000000000001f""#;

const GENESIS_END: &str = r#"]],"dreps":[]}"#;

/// A transaction that registers a pool, up to its key.
const POOL_REG: &str =
    r#"{"kind":"tx","id":"000000000000000000000000000000000000000000000000000000000000001f","inputs":[],"outputs":[],"fee":0,"size":0,"certs":[{"cert":"pool-reg","pool":"0000000000000000000000000000000000000000000000000000001f","cost":0,"pledge":0,"margin":[0,1],"account":"1k0000000000000000000000000000000000000000000000000000001f""#;

const POOL_REG_END: &str = "}]}";

/// A print of the state: of two fields of one name the last counts.
const PRINT: &[u8] = br#"{"what":"pots","kind":"block","kind":"print","what":"state"}"#;

const PRINT_ASSETS: &[u8] = br#"{"kind":"print","what":"assets"}"#;

const BLOCK: &[u8] = br#"{"kind":"block","slot":5,"pulse":3}"#;

#[test]
fn reads_a_record(rt: HostRuntime) -> Result<(), Fail> {
    let print = read_record(rt.alloc(), PRINT).ok();
    assert!(rt; matches!(print, Some(Record::Print(What::State))));
    let print = read_record(rt.alloc(), PRINT_ASSETS).ok();
    assert!(rt; matches!(print, Some(Record::Print(What::Assets))));
    let block = read_record(rt.alloc(), BLOCK).ok();
    assert!(rt; matches!(block, Some(Record::Block { slot: 5, pulse: 3 })));
    let line = format!(in rt.alloc(); "{GENESIS}{GENESIS_END}")?;
    let genesis = read_record(rt.alloc(), line.as_bytes()).ok();
    assert!(rt; matches!(genesis, Some(Record::Genesis(_))));
    Ok(())
}

const KEY: &str = r#""000000000000000000000000000000000000000000000000000000000000001f""#;

/// 31 bytes.
const SHORT_KEY: &str = r#""0000000000000000000000000000000000000000000000000000000000001f""#;

/// A digit too few.
const ODD_KEY: &str = r#""00000000000000000000000000000000000000000000000000000000000001f""#;

/// Two entries of a list.
const KEY_AND_MORE: &str =
    r#""000000000000000000000000000000000000000000000000000000000000001f",7"#;

/// A pool's key in a certificate, and in a genesis as the seventh entry: what each is refused for.
#[test]
fn keys_of_pools(rt: HostRuntime) -> Result<(), Fail> {
    let bad = |name| Some(RecordFault::BadField {
        name,
        place: Some(0),
    });
    let certs = bad(FieldName::Certs);
    let pools = bad(FieldName::Pools);
    for (key, of_certificate, of_genesis) in [
        (KEY, None, None),
        ("null", None, pools),
        (SHORT_KEY, certs, pools),
        (ODD_KEY, certs, pools),
        ("31", certs, pools),
        (KEY_AND_MORE, Some(RecordFault::BadJson), pools),
    ] {
        let line = format!(in rt.alloc(); r#"{POOL_REG},"key":{key}{POOL_REG_END}"#)?;
        assert!(rt;
            read_record(rt.alloc(), line.as_bytes()).err() == of_certificate,
            "at {key}"
        );
        let line = format!(in rt.alloc(); "{GENESIS},{key}{GENESIS_END}")?;
        assert!(rt;
            read_record(rt.alloc(), line.as_bytes()).err() == of_genesis,
            "at {key}"
        );
    }
    Ok(())
}

#[test]
fn names_the_fault(rt: HostRuntime) {
    let bad = |name| RecordFault::BadField { name, place: None };
    for (line, fault) in [
        ("[1", RecordFault::BadJson),
        ("7", RecordFault::UnknownKind),
        (r#"{"kind":"xx"}"#, RecordFault::UnknownKind),
        // the greatest number that rounds to a float, and one more in its last digit
        (
            r#"{"kind":"xx","n":1.7976931348623158e308}"#,
            RecordFault::UnknownKind,
        ),
        (
            r#"{"kind":"xx","n":1.7976931348623159e308}"#,
            RecordFault::BadJson,
        ),
        (r#"{"kind":"xx","n":1e-400}"#, RecordFault::UnknownKind),
        (r#"{"kind":"tx"}"#, bad(FieldName::Id)),
        (
            r#"{"kind":"block","slot":4611686018427387904}"#,
            bad(FieldName::Slot),
        ),
        (r#"{"kind":"block","slot":5}"#, bad(FieldName::Pulse)),
        (r#"{"kind":"print","what":"all"}"#, bad(FieldName::What)),
        (r#"{"kind":"print","what":null}"#, bad(FieldName::What)),
        (r#"{"id":null,"kind":"tx"}"#, bad(FieldName::Id)),
    ] {
        assert!(rt; read_record(rt.alloc(), line.as_bytes()).err() == Some(fault));
    }
}
