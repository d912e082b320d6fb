ghost use Rattle.std.specs.Prelude.{◌≡◌, Ok, Err, ◌^◌, option_map};
ghost use Rattle.std.specs.Result.{result_map_both};
ghost use Rattle.json_tree.specs.View.{view, items_view};
ghost use Rattle.json_fields.specs.Kinds.{field_in, optional_in, bool_in, u64_in, number_below, u32_in, u16_in, text_in, hash28_in, hash32_in, tx_id_in, pool_id_in, credential_in, account_in, address_in, asset_name_in, ref_in, action_id_in, drep_in, voter_in, items_in, pair_in, three_in, three_or_four_in, four_in, five_in, six_or_seven_in, unit_in, ratio_in};

use crate::fault::FieldFault;
use coin_frac::{Ratio, Unit};
use gov_ids::{
    Account, ActionId, Address, AssetName, Credential, Drep, OutRef, PoolId, TxId, Voter, hash28,
    hash32,
};
use json_tree::Value;

/// The value of an object's field; a null one counts as absent.
pub fn field<'v, 'a>(object: &'v Value<'a>, name: &str) -> Result<&'v Value<'a>, FieldFault>
    ensures { result_map_both (λ v. view v.now) (λ e. e) result ≡ field_in name.now (view object.now) }
{
    if !object.is_object() {
        return Err(FieldFault::WrongKind);
    }
    match object.get(name) {
        Some(value) if !value.is_null() => Ok(value),
        _ => Err(FieldFault::Missing),
    }
}

/// The value of an object's field, if it has one; a null one counts as absent.
pub fn optional_field<'v, 'a>(
    object: &'v Value<'a>,
    name: &str,
) -> Result<Option<&'v Value<'a>>, FieldFault>
    ensures { result_map_both (option_map (λ v. view v.now)) (λ e. e) result ≡ optional_in name.now (view object.now) }
{
    match field(object, name) {
        Ok(value) => Ok(Some(value)),
        Err(FieldFault::Missing) => Ok(None),
        Err(fault) => Err(fault),
    }
}

/// True or false.
pub fn read_bool(v: &Value<'_>) -> Result<bool, FieldFault>
    ensures { result ≡ bool_in (view v.now) }
{
    v.as_bool().ok_or(FieldFault::WrongKind)
}

/// A number of 64 bits.
pub fn read_u64(v: &Value<'_>) -> Result<u64, FieldFault>
    ensures { result ≡ u64_in (view v.now) }
{
    if !v.is_number() {
        return Err(FieldFault::WrongKind);
    }
    v.as_u64().ok_or(FieldFault::OutOfRange)
}

/// A number of 64 bits below a bound.
pub fn read_number_below(bound: u64, v: &Value<'_>) -> Result<u64, FieldFault>
    ensures { result ≡ number_below bound (view v.now) }
{
    let n = read_u64(v)?;
    if n < bound {
        Ok(n)
    } else {
        Err(FieldFault::OutOfRange)
    }
}

/// A number of 32 bits.
pub fn read_u32(v: &Value<'_>) -> Result<u32, FieldFault>
    ensures { result ≡ u32_in (view v.now) }
{
    let n = read_number_below(1 << 32, v)?;
    Ok(n as u32)
}

/// A number of 16 bits.
pub fn read_u16(v: &Value<'_>) -> Result<u16, FieldFault>
    ensures { result ≡ u16_in (view v.now) }
{
    let n = read_number_below(1 << 16, v)?;
    Ok(n as u16)
}

/// A text.
pub fn read_text<'a>(v: &Value<'a>) -> Result<&'a str, FieldFault>
    ensures { result_map_both (λ t. t.now) (λ e. e) result ≡ text_in (view v.now) }
{
    v.as_str().ok_or(FieldFault::WrongKind)
}

/// 28 bytes, as 56 hex digits.
pub fn read_hash28(v: &Value<'_>) -> Result<[u8; 28], FieldFault>
    ensures { result ≡ hash28_in (view v.now) }
{
    hash28(read_text(v)?).ok().ok_or(FieldFault::OutOfRange)
}

/// 32 bytes, as 64 hex digits.
pub fn read_hash32(v: &Value<'_>) -> Result<[u8; 32], FieldFault>
    ensures { result ≡ hash32_in (view v.now) }
{
    hash32(read_text(v)?).ok().ok_or(FieldFault::OutOfRange)
}

/// A transaction, as 64 hex digits.
pub fn read_tx_id(v: &Value<'_>) -> Result<TxId, FieldFault>
    ensures { result ≡ tx_id_in (view v.now) }
{
    Ok(TxId(read_hash32(v)?))
}

/// A pool, as 56 hex digits.
pub fn read_pool_id(v: &Value<'_>) -> Result<PoolId, FieldFault>
    ensures { result ≡ pool_id_in (view v.now) }
{
    gov_ids::read_pool(read_text(v)?).ok_or(FieldFault::OutOfRange)
}

/// A credential: `k` (key) or `s` (script), then 56 hex digits.
pub fn read_credential(v: &Value<'_>) -> Result<Credential, FieldFault>
    ensures { result ≡ credential_in (view v.now) }
{
    gov_ids::read_credential(read_text(v)?).ok_or(FieldFault::OutOfRange)
}

/// An account: the network's digit, then a credential.
pub fn read_account(v: &Value<'_>) -> Result<Account, FieldFault>
    ensures { result ≡ account_in (view v.now) }
{
    gov_ids::read_account(read_text(v)?).ok_or(FieldFault::OutOfRange)
}

/// An address: the network's digit, a payment credential, then perhaps `+` and a stake credential.
pub fn read_address(v: &Value<'_>) -> Result<Address, FieldFault>
    ensures { result ≡ address_in (view v.now) }
{
    gov_ids::read_address(read_text(v)?).ok_or(FieldFault::OutOfRange)
}

/// An asset's name: at most 32 bytes, each as two hex digits.
pub fn read_asset_name(v: &Value<'_>) -> Result<AssetName, FieldFault>
    ensures { result ≡ asset_name_in (view v.now) }
{
    gov_ids::read_asset_name(read_text(v)?).ok_or(FieldFault::OutOfRange)
}

/// A reference to an output: a transaction, `#`, an index below 65536.
pub fn read_ref(v: &Value<'_>) -> Result<OutRef, FieldFault>
    ensures { result ≡ ref_in (view v.now) }
{
    gov_ids::read_ref(read_text(v)?).ok_or(FieldFault::OutOfRange)
}

/// A governance action's id, in the form of an output reference.
pub fn read_action_id(v: &Value<'_>) -> Result<ActionId, FieldFault>
    ensures { result ≡ action_id_in (view v.now) }
{
    gov_ids::read_action_id(read_text(v)?).ok_or(FieldFault::OutOfRange)
}

/// What a vote is delegated to: a credential, `abstain` or `no-confidence`.
pub fn read_drep(v: &Value<'_>) -> Result<Drep, FieldFault>
    ensures { result ≡ drep_in (view v.now) }
{
    gov_ids::read_drep(read_text(v)?).ok_or(FieldFault::OutOfRange)
}

/// A voter: `committee:` or `drep:` and a credential, or `pool:` and 56 hex digits.
pub fn read_voter(v: &Value<'_>) -> Result<Voter, FieldFault>
    ensures { result ≡ voter_in (view v.now) }
{
    gov_ids::read_voter(read_text(v)?).ok_or(FieldFault::OutOfRange)
}

/// The entries of an array.
pub fn read_items<'v, 'a>(v: &'v Value<'a>) -> Result<&'v [Value<'a>], FieldFault>
    ensures { result_map_both (λ s. items_view s.now) (λ e. e) result ≡ items_in (view v.now) }
{
    v.as_array().ok_or(FieldFault::WrongKind)
}

/// An array of two entries.
#[tactic(auto, using(crate::proofs::Items::not_two))]
pub fn read_pair<'v, 'a>(v: &'v Value<'a>) -> Result<(&'v Value<'a>, &'v Value<'a>), FieldFault>
    ensures { result_map_both (λ t. (view t.0.now, view t.1.now)) (λ e. e) result ≡ pair_in (view v.now) }
{
    match read_items(v)? {
        [a, b] => Ok((a, b)),
        _ => Err(FieldFault::OutOfRange),
    }
}

/// An array of three entries.
#[tactic(auto, using(crate::proofs::Items::not_three))]
pub fn read_three<'v, 'a>(
    v: &'v Value<'a>,
) -> Result<(&'v Value<'a>, &'v Value<'a>, &'v Value<'a>), FieldFault>
    ensures { result_map_both (λ t. (view t.0.now, view t.1.now, view t.2.now)) (λ e. e) result
        ≡ three_in (view v.now) }
{
    match read_items(v)? {
        [a, b, c] => Ok((a, b, c)),
        _ => Err(FieldFault::OutOfRange),
    }
}

/// An array of three entries, or of four.
#[tactic(auto, using(crate::proofs::Items::not_three_or_four))]
pub fn read_three_or_four<'v, 'a>(
    v: &'v Value<'a>,
) -> Result<
    (
        &'v Value<'a>,
        &'v Value<'a>,
        &'v Value<'a>,
        Option<&'v Value<'a>>,
    ),
    FieldFault,
>
    ensures { result_map_both
        (λ t. (view t.0.now, view t.1.now, view t.2.now, option_map (λ d. view d.now) t.3)) (λ e. e) result
        ≡ three_or_four_in (view v.now) }
{
    match read_items(v)? {
        [a, b, c] => Ok((a, b, c, None)),
        [a, b, c, d] => Ok((a, b, c, Some(d))),
        _ => Err(FieldFault::OutOfRange),
    }
}

/// An array of four entries.
#[tactic(auto, using(crate::proofs::Items::not_four))]
pub fn read_four<'v, 'a>(
    v: &'v Value<'a>,
) -> Result<(&'v Value<'a>, &'v Value<'a>, &'v Value<'a>, &'v Value<'a>), FieldFault>
    ensures { result_map_both (λ t. (view t.0.now, view t.1.now, view t.2.now, view t.3.now)) (λ e. e) result
        ≡ four_in (view v.now) }
{
    match read_items(v)? {
        [a, b, c, d] => Ok((a, b, c, d)),
        _ => Err(FieldFault::OutOfRange),
    }
}

/// An array of five entries.
#[tactic(auto, using(crate::proofs::Items::not_five))]
pub fn read_five<'v, 'a>(
    v: &'v Value<'a>,
) -> Result<
    (
        &'v Value<'a>,
        &'v Value<'a>,
        &'v Value<'a>,
        &'v Value<'a>,
        &'v Value<'a>,
    ),
    FieldFault,
>
    ensures { result_map_both
        (λ t. (view t.0.now, view t.1.now, view t.2.now, view t.3.now, view t.4.now)) (λ e. e) result
        ≡ five_in (view v.now) }
{
    match read_items(v)? {
        [a, b, c, d, e] => Ok((a, b, c, d, e)),
        _ => Err(FieldFault::OutOfRange),
    }
}

/// An array of six entries, or of seven.
#[tactic(auto, using(crate::proofs::Items::not_six_or_seven))]
pub fn read_six_or_seven<'v, 'a>(
    v: &'v Value<'a>,
) -> Result<
    (
        &'v Value<'a>,
        &'v Value<'a>,
        &'v Value<'a>,
        &'v Value<'a>,
        &'v Value<'a>,
        &'v Value<'a>,
        Option<&'v Value<'a>>,
    ),
    FieldFault,
>
    ensures { result_map_both
        (λ t. (view t.0.now, view t.1.now, view t.2.now, view t.3.now, view t.4.now, view t.5.now, option_map (λ g. view g.now) t.6))
        (λ e. e) result
        ≡ six_or_seven_in (view v.now) }
{
    match read_items(v)? {
        [a, b, c, d, e, f] => Ok((a, b, c, d, e, f, None)),
        [a, b, c, d, e, f, g] => Ok((a, b, c, d, e, f, Some(g))),
        _ => Err(FieldFault::OutOfRange),
    }
}

/// A fraction from 0 to 1, as `[num,den]`. (UnitInterval of the formal specification)
#[tactic(auto, unfolding(crate::specs::Kinds::unit_in))]
pub fn read_unit(v: &Value<'_>) -> Result<Unit, FieldFault>
    ensures { result ≡ unit_in (view v.now) }
{
    let (num, den) = read_pair(v)?;
    let num = read_u64(num)?;
    let den = read_u64(den)?;
    Unit::new(num, den).ok().ok_or(FieldFault::OutOfRange)
}

/// Any fraction, as `[num,den]`. (ℚ of the formal specification, kept as it is written)
#[tactic(auto, unfolding(crate::specs::Kinds::ratio_in))]
pub fn read_ratio(v: &Value<'_>) -> Result<Ratio, FieldFault>
    ensures { result ≡ ratio_in (view v.now) }
{
    let (num, den) = read_pair(v)?;
    let num = read_u64(num)?;
    let den = read_u64(den)?;
    Ratio::new(num, den).ok().ok_or(FieldFault::OutOfRange)
}
