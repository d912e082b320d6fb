// Readers of ids: one for each id.
ghost use Rattle.std.specs.Prelude.{◌≡◌};
ghost use Rattle.gov_ids.specs.Spelling.{kind_of, network_of, number_of, index_of, place_of, stake_of, credential_of, account_of, address_of, asset_name_of, ref_of, action_id_of, pool_of, drep_of, voter_of};

use crate::hashes::read_hash;
use crate::{
    Account, ActionId, Address, AssetName, CredKind, Credential, Drep, NAME_LIMIT, OutRef, PoolId,
    TxId, Voter,
};

/// Reads a credential: `k` (key) or `s` (script), then 56 hex digits. (Own)
pub fn read_credential(text: &str) -> Option<Credential>
    ensures { result ≡ credential_of text.now }
{
    credential(text.as_bytes())
}

/// Reads an account: the network's digit, `0` or `1`, then a credential. (Own)
pub fn read_account(text: &str) -> Option<Account>
    ensures { result ≡ account_of text.now }
{
    let (digit, rest) = text.as_bytes().split_first()?;
    Some(Account {
        network: network(*digit)?,
        cred: credential(rest)?,
    })
}

/// Reads an address: the network's digit, a payment credential, then nothing or `+` and
/// a stake credential. (Own)
#[tactic(auto, using(crate::proofs::ReaderLemmas::address_of_short))]
pub fn read_address(text: &str) -> Option<Address>
    ensures { result ≡ address_of text.now }
{
    let (digit, rest) = text.as_bytes().split_first()?;
    let network = network(*digit)?;
    let (payment, stake) = rest.split_at_checked(57)?;
    Some(Address {
        network,
        payment: credential(payment)?,
        stake: stake_part(stake)?,
    })
}

/// Reads an asset's name: at most 32 bytes, each as two hex digits in either case. (Own)
pub fn read_asset_name(text: &str) -> Option<AssetName>
    ensures { result ≡ asset_name_of text.now }
{
    let digits = text.as_bytes();
    if digits.len() > 2 * NAME_LIMIT {
        return None;
    }
    let mut bytes = [0; NAME_LIMIT];
    let bytes = &mut bytes[..digits.len() / 2];
    hex::decode_to_slice(digits, bytes).ok()?;
    Some(AssetName::new(bytes))
}

/// Reads an output reference: 64 hex digits, `#`, and a decimal index below 65536
/// without a leading zero. (Own)
#[tactic(auto, using(crate::proofs::ReaderLemmas::ref_of_short))]
pub fn read_ref(text: &str) -> Option<OutRef>
    ensures { result ≡ ref_of text.now }
{
    let (digits, place) = text.as_bytes().split_at_checked(64)?;
    Some(OutRef {
        tx: TxId(read_hash(digits).ok()?),
        index: index_after_sign(place)?,
    })
}

/// Reads a governance action's id, in the form of an output reference. (Own)
#[tactic(auto, using(crate::proofs::ReaderLemmas::action_id_of_short))]
pub fn read_action_id(text: &str) -> Option<ActionId>
    ensures { result ≡ action_id_of text.now }
{
    let (digits, place) = text.as_bytes().split_at_checked(64)?;
    Some(ActionId {
        tx: TxId(read_hash(digits).ok()?),
        index: index_after_sign(place)?,
    })
}

/// Reads a pool: 56 hex digits. (Own)
pub fn read_pool(text: &str) -> Option<PoolId>
    ensures { result ≡ pool_of text.now }
{
    pool(text.as_bytes())
}

/// Reads a vote's delegate: a credential, `abstain` or `no-confidence`. (Own)
pub fn read_drep(text: &str) -> Option<Drep>
    ensures { result ≡ drep_of text.now }
{
    match text {
        "abstain" => Some(Drep::Abstain),
        "no-confidence" => Some(Drep::NoConfidence),
        _ => Some(Drep::Registered(credential(text.as_bytes())?)),
    }
}

/// Reads a voter: `committee:` or `drep:` and a credential, or `pool:` and 56 hex digits. (Own)
pub fn read_voter(text: &str) -> Option<Voter>
    ensures { result ≡ voter_of text.now }
{
    let text = text.as_bytes();
    if text.starts_with(b"committee:") {
        Some(Voter::Committee(credential(&text[10..])?))
    } else if text.starts_with(b"drep:") {
        Some(Voter::Drep(credential(&text[5..])?))
    } else if text.starts_with(b"pool:") {
        Some(Voter::Pool(pool(&text[5..])?))
    } else {
        None
    }
}

fn credential(text: &[u8]) -> Option<Credential>
    ensures { result ≡ credential_of text.now }
{
    let (letter, digits) = text.split_first()?;
    let kind = kind(*letter)?;
    Some(Credential {
        hash: read_hash(digits).ok()?,
        kind,
    })
}

fn kind(letter: u8) -> Option<CredKind>
    ensures { result ≡ kind_of letter }
{
    match letter {
        b'k' => Some(CredKind::Key),
        b's' => Some(CredKind::Script),
        _ => None,
    }
}

fn network(digit: u8) -> Option<u8>
    ensures { result ≡ network_of digit }
{
    match digit {
        b'0' => Some(0),
        b'1' => Some(1),
        _ => None,
    }
}

fn pool(text: &[u8]) -> Option<PoolId>
    ensures { result ≡ pool_of text.now }
{
    Some(PoolId(read_hash(text).ok()?))
}

fn stake_part(text: &[u8]) -> Option<Option<Credential>>
    ensures { result ≡ stake_of text.now }
{
    match text.split_first() {
        None => Some(None),
        Some((b'+', rest)) => Some(Some(credential(rest)?)),
        Some(_) => None,
    }
}

fn index_after_sign(text: &[u8]) -> Option<u16>
    ensures { result ≡ place_of text.now }
{
    match text.split_first()? {
        (b'#', digits) => index(digits),
        _ => None,
    }
}

fn index(digits: &[u8]) -> Option<u16>
    ensures { result ≡ index_of digits.now }
{
    match digits {
        [] | [b'0', _, ..] => None,
        _ => number(digits),
    }
}

// The number of the digits, if it is below 2^16.
fn number(digits: &[u8]) -> Option<u16>
    ensures { result ≡ number_of digits.now }
{
    let mut number: u16 = 0;
    for digit in digits {
        if !digit.is_ascii_digit() {
            return None;
        }
        number = number
            .checked_mul(10)?
            .checked_add(u16::from(*digit - b'0'))?;
    }
    Some(number)
}
