//! Values of a stream, and what they read as: numbers, fractions and lists, at their bounds.
ghost use Rattle.gov_ids.specs.Orders.{account_cmp};
ghost use Rattle.json_tree.specs.View.{view};
ghost use Rattle.json_fields.specs.Entries.{both_in};
ghost use Rattle.json_fields.specs.Kinds.{account_in, u64_in};
ghost use Rattle.json_fields.specs.Lists.{distinct_list_in};
ghost use Rattle.json_fields.specs.Reads.{ReadsList};

use gov_ids::Account;
use json_fields::{
    FieldFault, ListFault, read_distinct_list, read_list, read_ratio, read_u16, read_u32, read_unit,
};
use json_tree::{Scratch, Value, read_value};
use listed::Listed;
use std::alloc::Global;
use std::test::Fail;

const RANGE: Option<FieldFault> = Some(FieldFault::OutOfRange);

const KIND: Option<FieldFault> = Some(FieldFault::WrongKind);

/// Why the value is refused as a number below 2^16 or 2^32, as a fraction up to 1, and as any one.
fn faults(value: &Value<'_>) -> [Option<FieldFault>; 4] {
    [
        read_u16(value).err(),
        read_u32(value).err(),
        read_unit(value).err(),
        read_ratio(value).err(),
    ]
}

#[test]
fn numbers(rt: HostRuntime) -> Result<(), Fail> {
    for (text, wanted) in [
        ("65535", [None, None, KIND, KIND]),
        ("65536", [RANGE, None, KIND, KIND]),
        ("4294967296", [RANGE, RANGE, KIND, KIND]),
        ("-1", [RANGE, RANGE, KIND, KIND]),
        ("1.0", [RANGE, RANGE, KIND, KIND]),
        ("true", [KIND, KIND, KIND, KIND]),
        ("null", [KIND, KIND, KIND, KIND]),
        ("[2,2]", [KIND, KIND, None, None]),
        ("[3,2]", [KIND, KIND, RANGE, None]),
        ("[0,0]", [KIND, KIND, RANGE, RANGE]),
        ("[1]", [KIND, KIND, RANGE, RANGE]),
        ("[1,2,3]", [KIND, KIND, RANGE, RANGE]),
        ("[1,null]", [KIND, KIND, KIND, KIND]),
    ] {
        let mut scratch = Scratch::new(rt.alloc());
        let value = read_value(rt.alloc(), &mut scratch, text.as_bytes())?;
        let value = value.ok_or(FieldFault::WrongKind)?;
        assert!(rt; faults(&value) == wanted, "at {text}");
    }
    Ok(())
}

fn distinct_amounts(
    alloc: Global,
    limit: u32,
    value: &Value<'_>,
) -> Result<Listed<(Account, u64)>, ListFault>
    ensures { ReadsList result
        (distinct_list_in account_cmp (λ a. a.0) limit (both_in account_in u64_in) (view value.now)) }
{
    read_distinct_list::<(Account, u64)>(alloc, limit, value)
}

const TWO: &str =
    r#"[["1k0000000000000000000000000000000000000000000000000000001f",1],["1s0000000000000000000000000000000000000000000000000000001f",1]]"#;

const TWO_NETWORKS: &str =
    r#"[["1k0000000000000000000000000000000000000000000000000000001f",1],["0k0000000000000000000000000000000000000000000000000000001f",1]]"#;

const SAME_ACCOUNT: &str =
    r#"[["1k0000000000000000000000000000000000000000000000000000001f",1],["1k0000000000000000000000000000000000000000000000000000001f",2]]"#;

const THREE: &str =
    r#"[["1k0000000000000000000000000000000000000000000000000000001f",1],["1s0000000000000000000000000000000000000000000000000000001f",1],["0k0000000000000000000000000000000000000000000000000000001f",1]]"#;

const A_NUMBER: &str = r#"[["1k0000000000000000000000000000000000000000000000000000001f",1],7]"#;

fn at(place: u32, fault: FieldFault) -> Option<ListFault> {
    Some(ListFault::at(place, fault))
}

/// Lists of at most two entries: why each is refused, and what it is if no account may repeat.
#[test]
fn lists(rt: HostRuntime) -> Result<(), Fail> {
    let known = at(1, FieldFault::OutOfRange);
    let past = at(2, FieldFault::OutOfRange);
    let kind = at(1, FieldFault::WrongKind);
    let whole = Some(ListFault::whole(FieldFault::WrongKind));
    for (text, any, distinct) in [
        ("[]", None, None),
        (TWO, None, None),
        (TWO_NETWORKS, None, None),
        (SAME_ACCOUNT, None, known),
        (THREE, past, past),
        (A_NUMBER, kind, kind),
        ("7", whole, whole),
    ] {
        let mut scratch = Scratch::new(rt.alloc());
        let value = read_value(rt.alloc(), &mut scratch, text.as_bytes())?;
        let value = value.ok_or(FieldFault::WrongKind)?;
        let read = read_list::<(Account, u64)>(rt.alloc(), 2, &value);
        assert!(rt; read.err() == any, "at {text}");
        let read = distinct_amounts(rt.alloc(), 2, &value);
        assert!(rt; read.err() == distinct, "at {text}");
    }
    Ok(())
}
