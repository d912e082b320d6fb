//! Outputs with assets and what is minted: what each list of assets reads as, or is refused for.
use crate::records::GENESIS;
use gov_ids::{AssetId, AssetName};
use record_read::{RecordFault, read_record};
use std::alloc::Global;
use std::test::Fail;
use tx_records::{FieldName, Record, Tx};

const POLICY: &str = "00000000000000000000000000000000000000000000000000000005";

const OTHER_POLICY: &str = "00000000000000000000000000000000000000000000000000000006";

/// 32 bytes.
const LONGEST: &str = "000102030405060708090a0b0c0d0e0f101112131415161718191a1b1c1d1e1f";

/// 33 bytes.
const TOO_LONG: &str = "000102030405060708090a0b0c0d0e0f101112131415161718191a1b1c1d1e1f20";

/// A transaction with two outputs, up to the assets of the second.
const OUTPUT: &str =
    r#"{"kind":"tx","id":"000000000000000000000000000000000000000000000000000000000000001f","inputs":[],"fee":0,"size":0,"outputs":[["1k0000000000000000000000000000000000000000000000000000001f",5,0],["1k0000000000000000000000000000000000000000000000000000001f",5,0,"#;

/// A transaction up to the assets of its collateral return.
const RETURN: &str =
    r#"{"kind":"tx","id":"000000000000000000000000000000000000000000000000000000000000001f","inputs":[],"fee":0,"size":0,"outputs":[],"collateralReturn":["1k0000000000000000000000000000000000000000000000000000001f",5,0,"#;

/// A transaction up to what it mints.
const MINT: &str =
    r#"{"kind":"tx","id":"000000000000000000000000000000000000000000000000000000000000001f","inputs":[],"fee":0,"size":0,"outputs":[],"mint":"#;

/// The end of a genesis, up to its second output's assets. Of equal field names the last counts.
const GENESIS_OUTPUT: &str =
    r#"]],"dreps":[],"outputs":[["000000000000000000000000000000000000000000000000000000000000001f#0","1k0000000000000000000000000000000000000000000000000000001f",5],["000000000000000000000000000000000000000000000000000000000000001f#1","1k0000000000000000000000000000000000000000000000000000001f",5,"#;

const OUTPUTS_END: &str = "]]}";

const RETURN_END: &str = "]}";

const MINT_END: &str = "}";

/// The text of a list of these policies and names, each with this quantity.
fn list_of(alloc: Global, assets: &[(&str, &str)], quantity: &str) -> Result<String, Fail> {
    let mut list = String::new(alloc);
    list.push('[')?;
    for (policy, name) in assets {
        if list.len() > 1 {
            list.push(',')?;
        }
        let entry = format!(in alloc; r#"["{policy}","{name}",{quantity}]"#)?;
        list.push_str(entry.as_str())?;
    }
    list.push(']')?;
    Ok(list)
}

/// What a line is refused for.
fn fault_of(alloc: Global, parts: [&str; 3]) -> Result<Option<RecordFault>, Fail> {
    let [head, list, end] = parts;
    let line = format!(in alloc; "{head}{list}{end}")?;
    Ok(read_record(alloc, line.as_bytes()).err())
}

/// Why a list of assets is refused in an output, in one of a genesis, in a collateral return and in
/// what is minted.
fn faults(alloc: Global, list: &str) -> Result<[Option<RecordFault>; 4], Fail> {
    let genesis = format!(in alloc; "{GENESIS}{GENESIS_OUTPUT}")?;
    Ok([
        fault_of(alloc, [OUTPUT, list, OUTPUTS_END])?,
        fault_of(alloc, [genesis.as_str(), list, OUTPUTS_END])?,
        fault_of(alloc, [RETURN, list, RETURN_END])?,
        fault_of(alloc, [MINT, list, MINT_END])?,
    ])
}

fn bad(name: FieldName, place: Option<u32>) -> Option<RecordFault> {
    Some(RecordFault::BadField { name, place })
}

/// The four faults where an output, and what is minted too, is refused at the asset of this place.
fn refused(place: Option<u32>) -> [Option<RecordFault>; 4] {
    [
        bad(FieldName::Outputs, Some(1)),
        bad(FieldName::Outputs, Some(1)),
        bad(FieldName::CollateralReturn, None),
        bad(FieldName::Mint, place),
    ]
}

#[test]
fn names(rt: HostRuntime) -> Result<(), Fail> {
    for (assets, wanted) in [
        ([].as_slice(), [None; 4]),
        ([(POLICY, "")].as_slice(), [None; 4]),
        ([(POLICY, LONGEST)].as_slice(), [None; 4]),
        ([(POLICY, TOO_LONG)].as_slice(), refused(Some(0))),
        ([(POLICY, "abc")].as_slice(), refused(Some(0))),
        ([(POLICY, "0g")].as_slice(), refused(Some(0))),
        ([("05", "")].as_slice(), refused(Some(0))),
        ([(POLICY, "ab"), (POLICY, "ab00")].as_slice(), [None; 4]),
        ([(POLICY, "ab"), (OTHER_POLICY, "ab")].as_slice(), [None; 4]),
        (
            [(POLICY, "ab"), (POLICY, "ab")].as_slice(),
            refused(Some(1)),
        ),
        (
            [(OTHER_POLICY, ""), (POLICY, "ab"), (POLICY, "AB")].as_slice(),
            refused(Some(2)),
        ),
    ] {
        let list = list_of(rt.alloc(), assets, "1")?;
        assert!(rt; faults(rt.alloc(), list.as_str())? == wanted, "at {list}");
    }
    Ok(())
}

/// The four faults where the list is none in an output, and in what is minted.
fn refused_where(held: bool, minted: bool) -> [Option<RecordFault>; 4] {
    let [output, genesis, back, mint] = refused(Some(0));
    let of_outputs = |fault| if held { fault } else { None };
    let of_mint = |fault| if minted { fault } else { None };
    [
        of_outputs(output),
        of_outputs(genesis),
        of_outputs(back),
        of_mint(mint),
    ]
}

#[test]
fn quantities(rt: HostRuntime) -> Result<(), Fail> {
    for (quantity, held, minted) in [
        ("0", true, true),
        ("1", false, false),
        ("9223372036854775807", false, false),
        ("9223372036854775808", false, true),
        ("18446744073709551615", false, true),
        ("18446744073709551616", true, true),
        ("-1", true, false),
        ("-9223372036854775808", true, false),
        ("-9223372036854775809", true, true),
        ("-0", true, true),
        ("1.0", true, true),
        ("null", true, true),
        ("\"1\"", true, true),
    ] {
        let list = list_of(rt.alloc(), [(POLICY, "")].as_slice(), quantity)?;
        let wanted = refused_where(held, minted);
        assert!(rt;
            faults(rt.alloc(), list.as_str())? == wanted,
            "at {quantity}"
        );
    }
    Ok(())
}

/// What is no list of assets; a null list of what is minted counts as absent.
#[test]
fn shapes(rt: HostRuntime) -> Result<(), Fail> {
    let [output, genesis, back, _mint] = refused(None);
    for (list, mint) in [
        ("7", bad(FieldName::Mint, None)),
        ("null", None),
        ("[7]", bad(FieldName::Mint, Some(0))),
        (
            r#"[["00000000000000000000000000000000000000000000000000000005",""]]"#,
            bad(FieldName::Mint, Some(0)),
        ),
        (
            r#"[["00000000000000000000000000000000000000000000000000000005","",1,1]]"#,
            bad(FieldName::Mint, Some(0)),
        ),
    ] {
        let wanted = [output, genesis, back, mint];
        assert!(rt; faults(rt.alloc(), list)? == wanted, "at {list}");
    }
    let fifth = fault_of(rt.alloc(), [OUTPUT, "[],[]", OUTPUTS_END])?;
    assert!(rt; fifth == output);
    Ok(())
}

/// An asset of a policy, 27 bytes of 0 and the last, and a name of one byte.
fn asset(policy: u8, name: u8) -> AssetId {
    let mut hash = [0; 28];
    hash[27] = policy;
    AssetId {
        policy: hash,
        name: AssetName::new([name].as_slice()),
    }
}

/// Whether a transaction burns these, and its last output holds those.
fn moves(tx: &Tx, mint: &[(AssetId, i64)], held: &[(AssetId, u64)]) -> bool {
    let outputs = tx.outputs.as_slice();
    let last = outputs
        .last()
        .is_some_and(|output| output.assets.as_slice() == held);
    tx.mint.as_slice() == mint && last
}

/// Assets are in the order of their policies, then of their names.
#[test]
fn in_order(rt: HostRuntime) -> Result<(), Fail> {
    let assets = [(OTHER_POLICY, "01"), (POLICY, "02"), (POLICY, "01")];
    let list = list_of(rt.alloc(), assets.as_slice(), "9")?;
    let mint = list_of(rt.alloc(), assets.as_slice(), "-9")?;
    let line = format!(in rt.alloc(); r#"{OUTPUT}{list}]],"mint":{mint}{MINT_END}"#)?;
    let minted = [(asset(5, 1), -9), (asset(5, 2), -9), (asset(6, 1), -9)];
    let held = [(asset(5, 1), 9), (asset(5, 2), 9), (asset(6, 1), 9)];
    let Ok(Record::Tx(tx)) = read_record(rt.alloc(), line.as_bytes()) else {
        return Err(Fail::from("no transaction"));
    };
    assert!(rt; moves(tx.get(), minted.as_slice(), held.as_slice()));
    Ok(())
}
