//! Actions are printed as they are read: compact, in the formats' order, without absent fields.
use crate::actions::{COMMITTEE, PARAMS, WITHDRAWALS};
use action_lines::push_action;
use action_read::read_action;
use json_fields::FieldFault;
use json_tree::{Scratch, read_value};
use std::alloc::Global;
use std::test::Fail;

/// Actions that a stream has as they are printed.
const COMPACT: [&str; 9] = [
    COMMITTEE,
    WITHDRAWALS,
    r#"{"type":"Info"}"#,
    r#"{"type":"NoConfidence"}"#,
    r#"{"type":"TreasuryWithdrawals","targets":[]}"#,
    r#"{"type":"ParameterChange","update":{"eMax":0}}"#,
    r#"{"type":"UpdateCommittee","remove":[],"add":[],"threshold":[0,1]}"#,
    r#"{"type":"HardForkInitiation","previous":"0000000000000000000000000000000000000000000000000000000000000006#0","version":[11,1]}"#,
    r#"{"type":"NewConstitution","document":"0000000000000000000000000000000000000000000000000000000000000002","script":"00000000000000000000000000000000000000000000000000000098"}"#,
];

/// Actions that a stream has in another form, and as they are printed.
const OTHERWISE: [(&str, &str); 3] = [
    (
        r#" { "previous" : null , "type" : "Info" } "#,
        r#"{"type":"Info"}"#,
    ),
    (
        r#"{"update":{"nOpt":9,"rho":null,"minFeeA":7},"policy":null,"type":"ParameterChange"}"#,
        r#"{"type":"ParameterChange","update":{"minFeeA":7,"nOpt":9}}"#,
    ),
    (
        r#"{"type":"ParameterChange","update":{}}"#,
        r#"{"type":"ParameterChange","update":{}}"#,
    ),
];

/// What the action of a text is printed as.
fn printed(alloc: Global, text: &str) -> Result<Vec<u8>, Fail> {
    let mut scratch = Scratch::new(alloc);
    let value = read_value(alloc, &mut scratch, text.as_bytes())?;
    let value = value.ok_or(FieldFault::WrongKind)?;
    let action = read_action(alloc, &value)?;
    let mut out = Vec::new(alloc);
    push_action(&mut out, &action)?;
    Ok(out)
}

#[test]
fn compact_actions_stay(rt: HostRuntime) -> Result<(), Fail> {
    for text in COMPACT {
        let out = printed(rt.alloc(), text)?;
        assert!(rt; out.as_slice() == text.as_bytes(), "{text}");
    }
    for (text, other) in OTHERWISE {
        let out = printed(rt.alloc(), text)?;
        assert!(rt; out.as_slice() == other.as_bytes(), "{text}");
    }
    Ok(())
}

#[test]
fn all_parameters_stay(rt: HostRuntime) -> Result<(), Fail> {
    let text = format!(in rt.alloc(); "{{\"type\":\"ParameterChange\",\"update\":{PARAMS}}}")?;
    let out = printed(rt.alloc(), text.as_str())?;
    assert!(rt; out.as_slice() == text.as_bytes());
    Ok(())
}
