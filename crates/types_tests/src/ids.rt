//! Texts of ids: a valid one prints as it was read, any other reads as none. A map keyed by an id.
ghost use Rattle.std.specs.Prelude.{◌≡◌, OnOk};
ghost use Rattle.std.specs.BTreeMap.{insert_entry};
ghost use Rattle.gov_ids.specs.Orders.{drep_cmp};

use coin_frac::NoMemory;
use gov_ids::{
    CredKind, Credential, Drep, IdFault, hash28, hash32, push_account, push_action_id,
    push_address, push_credential, push_drep, push_pool, push_ref, push_voter, read_account,
    read_action_id, read_address, read_credential, read_drep, read_pool, read_ref, read_voter,
};
use std::collections::BTreeMap;
use std::test::Fail;

/// The type of an id.
#[derive(Clone, Copy)]
enum Kind {
    Credential,
    Account,
    Address,
    OutRef,
    ActionId,
    PoolId,
    Drep,
    Voter,
}

/// What the text reads as, printed behind what is there; false where it reads as none.
fn printed_again(out: &mut Vec<u8>, kind: Kind, text: &str) -> Result<bool, NoMemory> {
    match kind {
        Kind::Credential => match read_credential(text) {
            Some(id) => push_credential(out, &id)?,
            None => return Ok(false),
        },
        Kind::Account => match read_account(text) {
            Some(id) => push_account(out, &id)?,
            None => return Ok(false),
        },
        Kind::Address => match read_address(text) {
            Some(id) => push_address(out, &id)?,
            None => return Ok(false),
        },
        Kind::OutRef => match read_ref(text) {
            Some(id) => push_ref(out, &id)?,
            None => return Ok(false),
        },
        Kind::ActionId => match read_action_id(text) {
            Some(id) => push_action_id(out, &id)?,
            None => return Ok(false),
        },
        Kind::PoolId => match read_pool(text) {
            Some(id) => push_pool(out, &id)?,
            None => return Ok(false),
        },
        Kind::Drep => match read_drep(text) {
            Some(id) => push_drep(out, &id)?,
            None => return Ok(false),
        },
        Kind::Voter => match read_voter(text) {
            Some(id) => push_voter(out, &id)?,
            None => return Ok(false),
        },
    }
    Ok(true)
}

/// Texts of ids of a type, and whether each reads as one.
static TEXTS: [(Kind, &'static str, bool); 38] = [
    (
        Kind::Credential,
        "s0000000000000000000000000000000000000000000000000000000a",
        true,
    ),
    (
        Kind::Account,
        "1k00000000000000000000000000000000000000000000000000000001",
        true,
    ),
    (
        Kind::Address,
        "0s00000000000000000000000000000000000000000000000000000001",
        true,
    ),
    (
        Kind::Address,
        "1k00000000000000000000000000000000000000000000000000000001+s000000000000000000000000000000000000000000000000000000ff",
        true,
    ),
    (
        Kind::OutRef,
        "0000000000000000000000000000000000000000000000000000000000000002#0",
        true,
    ),
    (
        Kind::ActionId,
        "0000000000000000000000000000000000000000000000000000000000000002#65535",
        true,
    ),
    (
        Kind::PoolId,
        "00000000000000000000000000000000000000000000000000000050",
        true,
    ),
    (
        Kind::Drep,
        "k00000000000000000000000000000000000000000000000000000030",
        true,
    ),
    (Kind::Drep, "abstain", true),
    (Kind::Drep, "no-confidence", true),
    (
        Kind::Voter,
        "committee:s00000000000000000000000000000000000000000000000000000080",
        true,
    ),
    (
        Kind::Voter,
        "drep:k00000000000000000000000000000000000000000000000000000030",
        true,
    ),
    (
        Kind::Voter,
        "pool:00000000000000000000000000000000000000000000000000000050",
        true,
    ),
    (
        Kind::OutRef,
        "0000000000000000000000000000000000000000000000000000000000000002#",
        false,
    ),
    (
        Kind::OutRef,
        "0000000000000000000000000000000000000000000000000000000000000002#00",
        false,
    ),
    (
        Kind::OutRef,
        "0000000000000000000000000000000000000000000000000000000000000002#01",
        false,
    ),
    (
        Kind::OutRef,
        "0000000000000000000000000000000000000000000000000000000000000002#65536",
        false,
    ),
    (
        Kind::OutRef,
        "0000000000000000000000000000000000000000000000000000000000000002#99999999999",
        false,
    ),
    (
        Kind::OutRef,
        "0000000000000000000000000000000000000000000000000000000000000002#+1",
        false,
    ),
    (
        Kind::OutRef,
        "0000000000000000000000000000000000000000000000000000000000000002#-1",
        false,
    ),
    (
        Kind::OutRef,
        "0000000000000000000000000000000000000000000000000000000000000002#1 ",
        false,
    ),
    (
        Kind::OutRef,
        "0000000000000000000000000000000000000000000000000000000000000002#a",
        false,
    ),
    (
        Kind::Account,
        "00000000000000000000000000000000000000000000000000000001",
        false,
    ),
    (
        Kind::Account,
        "200000000000000000000000000000000000000000000000000000001",
        false,
    ),
    (
        Kind::Account,
        "k00000000000000000000000000000000000000000000000000000001",
        false,
    ),
    (
        Kind::Account,
        "1x00000000000000000000000000000000000000000000000000000001",
        false,
    ),
    (
        Kind::Account,
        "1K00000000000000000000000000000000000000000000000000000001",
        false,
    ),
    (
        Kind::Account,
        "0100000000000000000000000000000000000000000000000000000001",
        false,
    ),
    (
        Kind::Address,
        "1k00000000000000000000000000000000000000000000000000000001+",
        false,
    ),
    (
        Kind::Address,
        "1k00000000000000000000000000000000000000000000000000000001k",
        false,
    ),
    (
        Kind::Address,
        "1k00000000000000000000000000000000000000000000000000000001+1",
        false,
    ),
    (
        Kind::Address,
        "1k00000000000000000000000000000000000000000000000000000001 ",
        false,
    ),
    (
        Kind::Voter,
        "abstain00000000000000000000000000000000000000000000000000000001",
        false,
    ),
    (
        Kind::Voter,
        "cc:00000000000000000000000000000000000000000000000000000001",
        false,
    ),
    (
        Kind::Voter,
        "Drep:00000000000000000000000000000000000000000000000000000001",
        false,
    ),
    (
        Kind::Voter,
        "pool:k00000000000000000000000000000000000000000000000000000001",
        false,
    ),
    (
        Kind::Voter,
        "00000000000000000000000000000000000000000000000000000001",
        false,
    ),
    (Kind::Drep, "Abstain", false),
];

#[test]
fn texts(rt: HostRuntime) -> Result<(), Fail> {
    for (kind, text, reads) in &TEXTS {
        let mut out = Vec::new(rt.alloc());
        assert!(rt; printed_again(&mut out, *kind, *text)? == *reads, "{text}");
        assert!(rt; !*reads || out.as_slice() == text.as_bytes(), "{text}");
    }
    Ok(())
}

/// 54 digits of 0.
const ZEROS: &str = "000000000000000000000000000000000000000000000000000000";

/// 27 bytes of 0, and the last.
fn hash_ending(last: u8) -> [u8; 28] {
    let mut hash = [0; 28];
    hash[27] = last;
    hash
}

#[test]
fn hashes(rt: HostRuntime) -> Result<(), Fail> {
    for (end, short) in [
        ("1", Err(IdFault::BadLength)),
        ("1g", Err(IdFault::BadHex)),
        ("1F", Ok(hash_ending(31))),
    ] {
        let text = format!(in rt.alloc(); "{ZEROS}{end}")?;
        assert!(rt; hash28(text.as_str()) == short);
        let long = format!(in rt.alloc(); "00000000{ZEROS}{end}")?;
        assert!(rt; hash32(long.as_str()).is_ok() == short.is_ok());
    }
    Ok(())
}

fn put_drep(m: &mut BTreeMap<Drep, u64>, k: Drep, v: u64) -> Result<(), NoMemory>
    ensures { OnOk result (m.new.entries ≡ insert_entry drep_cmp m.old.entries k v) }
{
    m.insert(k, v)?;
    Ok(())
}

fn registered(kind: CredKind) -> Drep {
    let hash = hash_ending(2);
    Drep::Registered(Credential { hash, kind })
}

#[test]
fn maps_in_order(rt: HostRuntime) -> Result<(), Fail> {
    let mut dreps = BTreeMap::new(rt.alloc());
    for (drep, place) in [
        (Drep::NoConfidence, 3),
        (registered(CredKind::Script), 2),
        (registered(CredKind::Key), 1),
    ] {
        put_drep(&mut dreps, drep, place)?;
    }
    let values: Vec<u64> = dreps.values().copied().collect(rt.alloc())?;
    assert_eq!(rt; values.as_slice(), [1, 2, 3].as_slice());
    Ok(())
}
