//! The book of outputs: the totals of assets.
use assets::Assets;
use coin_frac::NoMemory;
use gov_ids::{Address, AssetId, AssetName, CredKind, Credential, OutRef, TxId};
use hash_seed::HashSeed;
use std::alloc::Global;
use std::process::Abort;
use std::test::Fail;
use utxo_set::{Output, UtxoSet};

const MOST: u128 = 18_446_744_073_709_551_615;

fn asset(name: u8) -> AssetId {
    AssetId {
        policy: [5; 28],
        name: AssetName::new(&[name]),
    }
}

fn at(tx: u8) -> OutRef {
    OutRef {
        tx: TxId([tx; 32]),
        index: 0,
    }
}

/// Puts an output with these assets into a book that holds little and has none at `r`.
fn put(rt: &impl Abort, book: &mut UtxoSet, r: OutRef, assets: Assets) -> Result<(), NoMemory> {
    let payment = Credential {
        hash: [9; 28],
        kind: CredKind::Key,
    };
    let address = Address {
        network: 0,
        payment,
        stake: None,
    };
    assert!(rt; book.get(&r).is_none());
    assert!(rt; book.total() < 1000);
    book.put(
        r,
        Output {
            address,
            lovelace: 10,
            assets,
        },
    )
}

/// An output with 5 of asset 1 and 7 of asset 2, one with the most of asset 1, and one with none.
fn three_outputs(rt: &impl Abort, alloc: Global) -> Result<UtxoSet, NoMemory> {
    let mut book = UtxoSet::new(alloc, HashSeed::new(1, 2));
    let two = Assets::from_entries(alloc, &[(asset(2), 7), (asset(1), 5)])?;
    let most = Assets::from_entries(alloc, &[(asset(1), u64::MAX)])?;
    put(rt, &mut book, at(1), two)?;
    put(rt, &mut book, at(2), most)?;
    put(rt, &mut book, at(3), Assets::none())?;
    Ok(book)
}

/// Whether the book has these totals of assets 0, 1 and 2.
fn has_totals(book: &UtxoSet, wanted: [u128; 3]) -> bool {
    [0, 1, 2].map(|name| book.asset_total(&asset(name))) == wanted
}

/// The first asset past the one of this name, with its total.
fn next_past(book: &UtxoSet, name: u8) -> Option<(AssetId, u128)> {
    let before = asset(name);
    book.next_asset(Some(&before))
}

/// The totals as outputs come and go; an asset that no output holds is gone.
#[test]
fn keeps_the_totals_of_assets(rt: HostRuntime) -> Result<(), Fail> {
    let mut book = three_outputs(&rt, rt.alloc())?;
    assert!(rt; has_totals(&book, [0, MOST + 5, 7]));
    assert!(rt; book.next_asset(None) == Some((asset(1), MOST + 5)));
    assert!(rt; next_past(&book, 1) == Some((asset(2), 7)));
    assert!(rt; next_past(&book, 2).is_none());
    book.take(&at(1));
    assert!(rt; has_totals(&book, [0, MOST, 0]));
    assert!(rt; next_past(&book, 1).is_none());
    book.take(&at(2));
    assert!(rt; has_totals(&book, [0, 0, 0]));
    assert!(rt; book.next_asset(None).is_none());
    Ok(())
}

/// The id whose bytes are all this one.
fn id(byte: u8) -> TxId {
    TxId([byte; 32])
}

/// The used ids are in order, whatever the seed, and the next one is the least past one.
#[test]
fn lists_the_used_ids_in_order(rt: HostRuntime) -> Result<(), Fail> {
    let wanted = [id(1), id(3), id(5), id(7)];
    for first in [0u64, 1, 99] {
        let mut book = UtxoSet::new(rt.alloc(), HashSeed::new(first, 2));
        for byte in [5u8, 1, 9, 3, 5, 7] {
            book.mark_used(id(byte))?;
        }
        book.unmark(&id(9));
        let ids = book.used_ids()?;
        assert_eq!(rt; ids.len(), wanted.len(), "{first}");
        for i in 0..wanted.len() {
            assert!(rt;
                ids.get(i).copied().copied() == wanted.get(i).copied(),
                "{first}, {i}"
            );
        }
        assert!(rt; book.next_used(Some(&id(3))) == Some(id(5)), "{first}");
        assert!(rt; book.next_used(Some(&id(7))).is_none(), "{first}");
    }
    Ok(())
}
