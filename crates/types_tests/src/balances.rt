//! Lists of assets, what is taken and given of each, and their totals.
use assets::{AssetBalance, AssetList, AssetTotals, Assets, Mint, burned, minted};
use gov_ids::{AssetId, AssetName};
use std::alloc::Global;
use std::test::Fail;

/// An asset of a policy, 28 times a byte, with a name of one byte.
fn asset(policy: u8, name: u8) -> AssetId {
    AssetId {
        policy: [policy; 28],
        name: AssetName::new([name].as_slice()),
    }
}

/// 3 of one asset, and the most of another.
fn held(alloc: Global) -> Result<Assets, Fail> {
    let entries = [(asset(2, 1), u64::MAX), (asset(1, 7), 3)];
    Ok(AssetList::from_entries(alloc, entries.as_slice())?)
}

#[test]
fn lists_stand_in_order(rt: HostRuntime) -> Result<(), Fail> {
    let list = held(rt.alloc())?;
    let copy = list.copied(rt.alloc())?;
    let wanted = [(asset(1, 7), 3), (asset(2, 1), u64::MAX)];
    assert!(rt; copy.as_slice() == wanted.as_slice());
    assert!(rt; !list.is_empty());
    let none: Mint = AssetList::none();
    assert!(rt; none.is_empty());
    Ok(())
}

#[test]
fn minted_or_burned(rt: HostRuntime) {
    for (quantity, more, less) in [
        (7, 7, 0),
        (-7, 0, 7),
        (i64::MAX, 9223372036854775807, 0),
        (i64::MIN, 0, 9223372036854775808),
    ] {
        assert!(rt; minted(quantity) == more && burned(quantity) == less);
    }
}

/// Taken, given and minted amounts of a policy's asset, and the first asset whose sides differ.
#[test]
fn balances(rt: HostRuntime) -> Result<(), Fail> {
    for (taken, given, moved, uneven) in [
        ((1, 5), (1, 5), (2, 1), Some((1, 1, 0))),
        ((1, 5), (1, 3), (1, -2), None),
        ((1, 5), (1, 7), (1, 2), None),
        ((2, 5), (1, 7), (1, 8), Some((0, 8, 7))),
        (
            (1, u64::MAX),
            (1, 1),
            (1, 1),
            Some((0, 18446744073709551616, 1)),
        ),
    ] {
        let mut balance = AssetBalance::new(rt.alloc());
        balance.take([(asset(taken.0, 7), taken.1)].as_slice())?;
        balance.give([(asset(given.0, 7), given.1)].as_slice())?;
        balance.mint(&minting(rt.alloc(), moved.0, moved.1)?)?;
        assert_eq!(rt; balance.first_uneven(), uneven);
    }
    Ok(())
}

/// Some of the asset of a policy is minted, or burned; there is none of it where it is none.
fn minting(alloc: Global, policy: u8, quantity: i64) -> Result<Mint, Fail> {
    if quantity == 0 {
        return Ok(AssetList::none());
    }
    let entries = [(asset(policy, 7), quantity)];
    Ok(AssetList::from_entries(alloc, entries.as_slice())?)
}

/// The first asset past one, with its total.
fn next_past(totals: &AssetTotals, policy: u8, name: u8) -> Option<(AssetId, u128)> {
    let before = asset(policy, name);
    totals.next(Some(&before))
}

#[test]
fn totals(rt: HostRuntime) -> Result<(), Fail> {
    let list = held(rt.alloc())?;
    let mut totals = AssetTotals::new(rt.alloc());
    totals.add(&list)?;
    totals.add(&list)?;
    assert!(rt; totals.total(&asset(2, 1)) == 36893488147419103230);
    assert!(rt; totals.total(&asset(3, 1)) == 0);
    totals.subtract(&list);
    assert!(rt; totals.next(None) == Some((asset(1, 7), 3)));
    assert!(rt; next_past(&totals, 1, 7) == Some((asset(2, 1), 18446744073709551615)));
    assert!(rt; next_past(&totals, 2, 1).is_none());
    totals.subtract(&list);
    assert!(rt; totals.next(None).is_none());
    Ok(())
}
