//! Short and long lists: what they hold, what is found in them, and the first repeated item.
use credential_list::CredentialList;
use gov_actions::MemberList;
use gov_ids::{CredKind, Credential, OutRef, TxId};
use listed::{Boxed, Listed};
use out_refs::OutRefs;
use std::alloc::{AllocError, Global};
use std::test::Fail;

fn key(byte: u8) -> Credential {
    Credential {
        hash: [byte; 28],
        kind: CredKind::Key,
    }
}

fn keys(alloc: Global, bytes: &[u8]) -> Result<Vec<Credential>, AllocError> {
    let mut keys = Vec::new(alloc);
    for byte in bytes {
        keys.push(key(*byte))?;
    }
    Ok(keys)
}

/// References to the first outputs of the transactions of these bytes.
fn refs(alloc: Global, bytes: &[u8]) -> Result<Vec<OutRef>, AllocError> {
    let mut refs = Vec::new(alloc);
    for byte in bytes {
        refs.push(OutRef {
            tx: TxId([*byte; 32]),
            index: 0,
        })?;
    }
    Ok(refs)
}

#[test]
fn keeps_items(rt: HostRuntime) -> Result<(), Fail> {
    let mut list = Listed::from_vec([1, 2].to_vec(rt.alloc())?);
    list.push(3)?;
    let copy = list.clone()?;
    assert!(rt; list == copy);
    let boxed = Boxed::new(rt.alloc(), copy)?;
    assert_eq!(rt; boxed.get().as_slice(), [1, 2, 3].as_slice());
    Ok(())
}

/// A list of up to eight is searched directly, a longer one by a set.
#[test]
fn finds_credentials(rt: HostRuntime) -> Result<(), Fail> {
    for (bytes, sought, found) in [
        ([].as_slice(), 7, false),
        ([7].as_slice(), 7, true),
        ([9, 8, 7].as_slice(), 6, false),
        ([8, 7, 6, 5, 4, 3, 2, 1].as_slice(), 1, true),
        ([9, 8, 7, 6, 5, 4, 3, 2, 1].as_slice(), 1, true),
        ([9, 8, 7, 6, 5, 4, 3, 2, 1].as_slice(), 10, false),
        ([1, 1, 1, 1, 1, 1, 1, 1, 1, 2].as_slice(), 2, true),
        ([1, 1, 1, 1, 1, 1, 1, 1, 1, 2].as_slice(), 3, false),
    ] {
        let list = CredentialList::from_vec(rt.alloc(), keys(rt.alloc(), bytes)?)?;
        let copy = list.copied(rt.alloc())?;
        assert!(rt; list.contains(&key(sought)) == found);
        assert!(rt; copy.contains(&key(sought)) == found);
    }
    Ok(())
}

#[test]
fn finds_members_in_any_order(rt: HostRuntime) -> Result<(), Fail> {
    for bytes in [[2, 4, 7], [7, 2, 4], [2, 2, 7]] {
        let members = bytes.map(|byte| (key(byte), 9));
        let list = MemberList::from_vec(members.to_vec(rt.alloc())?);
        let copy = list.copied(rt.alloc())?;
        for byte in 1..=8 {
            assert!(rt; copy.contains(&key(byte)) == bytes.contains(&byte));
        }
    }
    Ok(())
}

#[test]
fn finds_the_first_repeated(rt: HostRuntime) -> Result<(), Fail> {
    for (bytes, repeated) in [
        ([].as_slice(), None),
        ([7].as_slice(), None),
        ([1, 2, 1, 1].as_slice(), Some(2)),
        ([1, 2, 3, 4, 5, 6, 7, 8].as_slice(), None),
        ([1, 2, 3, 4, 5, 6, 7, 8, 9, 10].as_slice(), None),
        ([1, 2, 3, 4, 5, 6, 7, 8, 9, 8, 1].as_slice(), Some(9)),
    ] {
        let list = OutRefs::from_vec(rt.alloc(), refs(rt.alloc(), bytes)?)?;
        assert_eq!(rt; list.first_repeated(), repeated);
    }
    Ok(())
}
