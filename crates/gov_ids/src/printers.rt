// The printed text of ids: one printer for each id.
ghost use Rattle.std.specs.Prelude.{◌≡◌, ◌≤◌, ◌++◌, length, take, vec_len, decimal, OnOk, OnErr};
ghost use Rattle.gov_ids.specs.Spelling.{hash_text, asset_name_text, kind_text, stake_text, credential_text, account_text, address_text, ref_text, action_id_text, pool_text, drep_text, voter_text};

use crate::{
    Account, ActionId, Address, AssetName, CredKind, Credential, Drep, OutRef, PoolId, Voter,
};
use itoa::Buffer;
use no_memory::NoMemory;

/// Appends a hash of at most 32 bytes, in lower case hex digits. (Own)
/// `NoMemory` keeps the old text; a part of the new text may follow it.
pub fn push_hash(out: &mut Vec<u8>, hash: &[u8]) -> Result<(), NoMemory>
    requires { length hash.now ≤ 32 }
    ensures ok { OnOk result (out.new.items ≡ out.old.items ++ hash_text hash.now) }
    ensures err { OnErr result (take (vec_len out.old) out.new.items ≡ out.old.items) }
{
    let mut digits = [0u8; 64];
    let digits = &mut digits[..2 * hash.len()];
    hex::encode_to_slice(hash, digits).unwrap();
    out.extend_from_slice(digits)?;
    Ok(())
}

/// Appends an asset's name in lower case hex digits, or `-` if it is empty. (Own)
/// `NoMemory` keeps the old text; a part of the new text may follow it.
pub fn push_asset_name(out: &mut Vec<u8>, name: &AssetName) -> Result<(), NoMemory>
    ensures ok { OnOk result (out.new.items ≡ out.old.items ++ asset_name_text name.now) }
    ensures err { OnErr result (take (vec_len out.old) out.new.items ≡ out.old.items) }
{
    let bytes = name.bytes();
    if bytes.is_empty() {
        out.push(b'-')?;
        return Ok(());
    }
    push_hash(out, bytes)
}

/// Appends a credential. (Own)
/// `NoMemory` keeps the old text; a part of the new text may follow it.
pub fn push_credential(out: &mut Vec<u8>, c: &Credential) -> Result<(), NoMemory>
    ensures ok { OnOk result (out.new.items ≡ out.old.items ++ credential_text c.now) }
    ensures err { OnErr result (take (vec_len out.old) out.new.items ≡ out.old.items) }
{
    let letter = match c.kind {
        CredKind::Key => b'k',
        CredKind::Script => b's',
    };
    out.push(letter)?;
    push_hash(out, &c.hash)
}

/// Appends an account. (Own)
/// `NoMemory` keeps the old text; a part of the new text may follow it.
pub fn push_account(out: &mut Vec<u8>, a: &Account) -> Result<(), NoMemory>
    ensures ok { OnOk result (out.new.items ≡ out.old.items ++ account_text a.now) }
    ensures err { OnErr result (take (vec_len out.old) out.new.items ≡ out.old.items) }
{
    push_place(out, a.network, &a.cred)
}

/// Appends an address. (Own)
/// `NoMemory` keeps the old text; a part of the new text may follow it.
pub fn push_address(out: &mut Vec<u8>, a: &Address) -> Result<(), NoMemory>
    ensures ok { OnOk result (out.new.items ≡ out.old.items ++ address_text a.now) }
    ensures err { OnErr result (take (vec_len out.old) out.new.items ≡ out.old.items) }
{
    push_place(out, a.network, &a.payment)?;
    push_stake(out, &a.stake)
}

/// Appends an output reference. (Own)
/// `NoMemory` keeps the old text; a part of the new text may follow it.
pub fn push_ref(out: &mut Vec<u8>, r: &OutRef) -> Result<(), NoMemory>
    ensures ok { OnOk result (out.new.items ≡ out.old.items ++ ref_text r.now) }
    ensures err { OnErr result (take (vec_len out.old) out.new.items ≡ out.old.items) }
{
    push_hash(out, &r.tx.0)?;
    out.push(b'#')?;
    push_number(out, r.index)
}

/// Appends a governance action's id. (Own)
/// `NoMemory` keeps the old text; a part of the new text may follow it.
pub fn push_action_id(out: &mut Vec<u8>, a: &ActionId) -> Result<(), NoMemory>
    ensures ok { OnOk result (out.new.items ≡ out.old.items ++ action_id_text a.now) }
    ensures err { OnErr result (take (vec_len out.old) out.new.items ≡ out.old.items) }
{
    push_hash(out, &a.tx.0)?;
    out.push(b'#')?;
    push_number(out, a.index)
}

/// Appends a pool. (Own)
/// `NoMemory` keeps the old text; a part of the new text may follow it.
pub fn push_pool(out: &mut Vec<u8>, p: &PoolId) -> Result<(), NoMemory>
    ensures ok { OnOk result (out.new.items ≡ out.old.items ++ pool_text p.now) }
    ensures err { OnErr result (take (vec_len out.old) out.new.items ≡ out.old.items) }
{
    push_hash(out, &p.0)
}

/// Appends a vote's delegate. (Own)
/// `NoMemory` keeps the old text; a part of the new text may follow it.
pub fn push_drep(out: &mut Vec<u8>, d: &Drep) -> Result<(), NoMemory>
    ensures ok { OnOk result (out.new.items ≡ out.old.items ++ drep_text d.now) }
    ensures err { OnErr result (take (vec_len out.old) out.new.items ≡ out.old.items) }
{
    match d {
        Drep::Registered(c) => push_credential(out, c),
        Drep::Abstain => push_bytes(out, b"abstain"),
        Drep::NoConfidence => push_bytes(out, b"no-confidence"),
    }
}

/// Appends a voter. (Own)
/// `NoMemory` keeps the old text; a part of the new text may follow it.
pub fn push_voter(out: &mut Vec<u8>, v: &Voter) -> Result<(), NoMemory>
    ensures ok { OnOk result (out.new.items ≡ out.old.items ++ voter_text v.now) }
    ensures err { OnErr result (take (vec_len out.old) out.new.items ≡ out.old.items) }
{
    match v {
        Voter::Committee(c) => {
            push_bytes(out, b"committee:")?;
            push_credential(out, c)
        }
        Voter::Drep(c) => {
            push_bytes(out, b"drep:")?;
            push_credential(out, c)
        }
        Voter::Pool(p) => {
            push_bytes(out, b"pool:")?;
            push_pool(out, p)
        }
    }
}

// Appends the network's digit and a credential.
fn push_place(out: &mut Vec<u8>, network: u8, c: &Credential) -> Result<(), NoMemory>
    ensures ok { OnOk result (out.new.items ≡ out.old.items ++ decimal network ++ credential_text c.now) }
    ensures err { OnErr result (take (vec_len out.old) out.new.items ≡ out.old.items) }
{
    push_number(out, u16::from(network))?;
    push_credential(out, c)
}

fn push_stake(out: &mut Vec<u8>, stake: &Option<Credential>) -> Result<(), NoMemory>
    ensures ok { OnOk result (out.new.items ≡ out.old.items ++ stake_text stake.now) }
    ensures err { OnErr result (take (vec_len out.old) out.new.items ≡ out.old.items) }
{
    match stake {
        None => Ok(()),
        Some(c) => {
            out.push(b'+')?;
            push_credential(out, c)
        }
    }
}

fn push_bytes(out: &mut Vec<u8>, bytes: &[u8]) -> Result<(), NoMemory>
    ensures ok { OnOk result (out.new.items ≡ out.old.items ++ bytes.now) }
    ensures err { OnErr result (out.new.items ≡ out.old.items) }
{
    out.extend_from_slice(bytes)?;
    Ok(())
}

fn push_number(out: &mut Vec<u8>, n: u16) -> Result<(), NoMemory>
    ensures ok { OnOk result (out.new.items ≡ out.old.items ++ decimal n) }
    ensures err { OnErr result (out.new.items ≡ out.old.items) }
{
    let mut buffer = Buffer::new();
    push_bytes(out, buffer.format(n).as_bytes())
}
