//! Names of assets: the texts that read as one, and how each prints.
use gov_ids::{push_asset_name, read_asset_name};
use std::test::Fail;

/// 32 bytes.
const LONGEST: &str = "000102030405060708090a0b0c0d0e0f101112131415161718191a1b1c1d1e1f";

/// 33 bytes.
const TOO_LONG: &str = "000102030405060708090a0b0c0d0e0f101112131415161718191a1b1c1d1e1f20";

#[test]
fn names_of_assets(rt: HostRuntime) -> Result<(), Fail> {
    for (text, printed) in [
        ("", Some("-")),
        ("00", Some("00")),
        ("aBcD", Some("abcd")),
        (LONGEST, Some(LONGEST)),
        (TOO_LONG, None),
        ("abc", None),
        ("0g", None),
        ("-", None),
    ] {
        let mut out = Vec::new(rt.alloc());
        let name = read_asset_name(text);
        assert!(rt; name.is_some() == printed.is_some(), "{text}");
        if let Some(name) = name {
            push_asset_name(&mut out, &name)?;
        }
        assert!(rt;
            out.as_slice() == printed.unwrap_or("").as_bytes(),
            "{text}"
        );
    }
    Ok(())
}
