ghost use Rattle.std.specs.Prelude.{◌≡◌, option_and_then};
ghost use Rattle.serde_json.specs.Find.{as_i64, as_number};
ghost use Rattle.json_tree.specs.View.{view};
ghost use Rattle.record_read.specs.Entries.{epoch_length_in, held_in, moved_in, nullable_in};
ghost use Rattle.json_fields.specs.Kinds.{credential_in, drep_in, pool_id_in};
ghost use Rattle.record_shapes.specs.Forms.{fault_of, form_fault, major_in};

use assets::Quantity;
use json_fields::{
    FieldFault, read_account, read_action_id, read_address, read_asset_name, read_bool,
    read_credential, read_drep, read_hash28, read_hash32, read_number_below, read_pool_id,
    read_ratio, read_ref, read_text, read_u16, read_u32, read_u64, read_unit, read_voter,
};
use json_tree::{Number, Value};
use tx_records::limits::{LEAST_MAJOR, NETWORK_LIMIT, SLOT_LIMIT};

/// A value that one reader takes whole.
#[derive(Clone, Copy)]
pub enum Form {
    /// A text.
    Text,
    /// True or false.
    Bool,
    /// A number of 64 bits: an amount of lovelace, or an epoch.
    U64,
    /// A number of 32 bits.
    U32,
    /// A number of 16 bits.
    U16,
    /// How much an output holds of an asset: a number of 64 bits from 1 on.
    Held,
    /// How much is minted or burned of one: a whole number of 64 bits with its sign, and not 0.
    Moved,
    /// How many slots an epoch has: a number of 32 bits from 1 on.
    EpochLength,
    /// The major part of a protocol version of the Conway era.
    Major,
    /// The number of a network.
    Network,
    /// A slot, a term or an expiry.
    Slot,
    /// 28 bytes as hex digits.
    Hash28,
    /// 32 bytes as hex digits.
    Hash32,
    /// A key or a script.
    Credential,
    /// One that may be null.
    CredentialOrNull,
    /// A reward account.
    Account,
    /// An address.
    Address,
    /// The name of an asset, as hex digits.
    AssetName,
    /// An output, by its transaction and its index.
    Reference,
    /// A governance action, by its transaction and its index.
    ActionId,
    /// A stake pool.
    PoolId,
    /// One that may be null.
    PoolIdOrNull,
    /// A DRep.
    Drep,
    /// One that may be null.
    DrepOrNull,
    /// A voter.
    Voter,
    /// A fraction from 0 to 1.
    Unit,
    /// Any fraction.
    Ratio,
}

/// Why a value is no amount of an asset that an output may hold.
fn held_fault(value: &Value<'_>) -> Option<FieldFault>
    ensures { result ≡ fault_of (held_in (view value.now)) }
{
    match read_u64(value) {
        Ok(held) if held.is_quantity() => None,
        Ok(_) => Some(FieldFault::OutOfRange),
        Err(fault) => Some(fault),
    }
}

/// The number, where it is an integer of 64 bits with its sign.
fn as_i64(value: &Value<'_>) -> Option<i64>
    ensures { result ≡ option_and_then as_i64 (as_number (view value.now)) }
{
    match value {
        Value::Number(Number::Unsigned(n)) => i64::try_from(*n).ok(),
        Value::Number(Number::Negative(n)) => Some(*n),
        _ => None,
    }
}

/// Why a value is no amount of an asset that a transaction may mint or burn.
fn moved_fault(value: &Value<'_>) -> Option<FieldFault>
    ensures { result ≡ fault_of (moved_in (view value.now)) }
{
    if !value.is_number() {
        return Some(FieldFault::WrongKind);
    }
    match as_i64(value) {
        Some(moved) if moved.is_quantity() => None,
        _ => Some(FieldFault::OutOfRange),
    }
}

/// Why a value is no count of the slots of an epoch.
fn epoch_length_fault(value: &Value<'_>) -> Option<FieldFault>
    ensures { result ≡ fault_of (epoch_length_in (view value.now)) }
{
    match read_u32(value) {
        Ok(slots) if 1 <= slots => None,
        Ok(_) => Some(FieldFault::OutOfRange),
        Err(fault) => Some(fault),
    }
}

/// Why a value is no major part of a protocol version of the Conway era.
fn major_fault(value: &Value<'_>) -> Option<FieldFault>
    ensures { result ≡ fault_of (major_in (view value.now)) }
{
    match read_u32(value) {
        Ok(major) if LEAST_MAJOR <= major => None,
        Ok(_) => Some(FieldFault::OutOfRange),
        Err(fault) => Some(fault),
    }
}

/// Why a value is no credential, and not null.
fn credential_fault(value: &Value<'_>) -> Option<FieldFault>
    ensures { result ≡ fault_of (nullable_in credential_in (view value.now)) }
{
    if value.is_null() {
        None
    } else {
        read_credential(value).err()
    }
}

/// Why a value is no pool, and not null.
fn pool_fault(value: &Value<'_>) -> Option<FieldFault>
    ensures { result ≡ fault_of (nullable_in pool_id_in (view value.now)) }
{
    if value.is_null() {
        None
    } else {
        read_pool_id(value).err()
    }
}

/// Why a value is no DRep, and not null.
fn drep_fault(value: &Value<'_>) -> Option<FieldFault>
    ensures { result ≡ fault_of (nullable_in drep_in (view value.now)) }
{
    if value.is_null() {
        None
    } else {
        read_drep(value).err()
    }
}

impl Form {
    /// Why a value is not of the form; none if it is.
    pub fn fault(self, value: &Value<'_>) -> Option<FieldFault>
        ensures { result ≡ form_fault self (view value.now) }
    {
        match self {
            Form::Text => read_text(value).err(),
            Form::Bool => read_bool(value).err(),
            Form::U64 => read_u64(value).err(),
            Form::U32 => read_u32(value).err(),
            Form::U16 => read_u16(value).err(),
            Form::Held => held_fault(value),
            Form::Moved => moved_fault(value),
            Form::EpochLength => epoch_length_fault(value),
            Form::Major => major_fault(value),
            Form::Network => read_number_below(NETWORK_LIMIT as u64, value).err(),
            Form::Slot => read_number_below(SLOT_LIMIT, value).err(),
            Form::Hash28 => read_hash28(value).err(),
            Form::Hash32 => read_hash32(value).err(),
            Form::Credential => read_credential(value).err(),
            Form::CredentialOrNull => credential_fault(value),
            Form::Account => read_account(value).err(),
            Form::Address => read_address(value).err(),
            Form::AssetName => read_asset_name(value).err(),
            Form::Reference => read_ref(value).err(),
            Form::ActionId => read_action_id(value).err(),
            Form::PoolId => read_pool_id(value).err(),
            Form::PoolIdOrNull => pool_fault(value),
            Form::Drep => read_drep(value).err(),
            Form::DrepOrNull => drep_fault(value),
            Form::Voter => read_voter(value).err(),
            Form::Unit => read_unit(value).err(),
            Form::Ratio => read_ratio(value).err(),
        }
    }
}
