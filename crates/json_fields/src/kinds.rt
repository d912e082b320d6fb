ghost use Rattle.std.specs.Prelude.{◌≡◌};
ghost use Rattle.json_tree.specs.View.{view};
ghost use Rattle.json_fields.specs.Entries.{needed_in, maybe_in};
ghost use Rattle.json_fields.specs.Reads.{Reads};

use crate::fault::FieldFault;
use crate::lists::Kind;
use crate::readers::{
    field, optional_field, read_account, read_action_id, read_address, read_asset_name, read_bool,
    read_credential, read_drep, read_hash28, read_hash32, read_pair, read_pool_id, read_ratio,
    read_ref, read_tx_id, read_u16, read_u32, read_u64, read_unit, read_voter,
};
use coin_frac::{Ratio, Unit};
use gov_ids::{
    Account, ActionId, Address, AssetName, Credential, Drep, OutRef, PoolId, TxId, Voter,
};
use json_tree::Value;
use std::alloc::Global;

/// A field that must be there.
pub fn needed<K: Kind>(
    alloc: Global,
    object: &Value<'_>,
    name: &str,
) -> Result<K::Entry, FieldFault>
    ensures { Reads result (needed_in name.now K.reading (view object.now)) }
{
    K::read(alloc, field(object, name)?)
}

/// A field that may be absent or null.
pub fn maybe<K: Kind>(
    alloc: Global,
    object: &Value<'_>,
    name: &str,
) -> Result<Option<K::Entry>, FieldFault>
    ensures { Reads result (maybe_in name.now K.reading (view object.now)) }
{
    match optional_field(object, name)? {
        Some(value) => Ok(Some(K::read(alloc, value)?)),
        None => Ok(None),
    }
}

impl Kind for bool {
    type Entry = bool;

    ghost use Rattle.json_fields.specs.Kinds.{bool_in};

    ghost reading = { bool_in };

    fn read(_alloc: Global, value: &Value<'_>) -> Result<bool, FieldFault> {
        read_bool(value)
    }
}

impl Kind for u64 {
    type Entry = u64;

    ghost use Rattle.json_fields.specs.Kinds.{u64_in};

    ghost reading = { u64_in };

    fn read(_alloc: Global, value: &Value<'_>) -> Result<u64, FieldFault> {
        read_u64(value)
    }
}

impl Kind for u32 {
    type Entry = u32;

    ghost use Rattle.json_fields.specs.Kinds.{u32_in};

    ghost reading = { u32_in };

    fn read(_alloc: Global, value: &Value<'_>) -> Result<u32, FieldFault> {
        read_u32(value)
    }
}

impl Kind for u16 {
    type Entry = u16;

    ghost use Rattle.json_fields.specs.Kinds.{u16_in};

    ghost reading = { u16_in };

    fn read(_alloc: Global, value: &Value<'_>) -> Result<u16, FieldFault> {
        read_u16(value)
    }
}

impl Kind for [u8; 28] {
    type Entry = [u8; 28];

    ghost use Rattle.json_fields.specs.Kinds.{hash28_in};

    ghost reading = { hash28_in };

    fn read(_alloc: Global, value: &Value<'_>) -> Result<[u8; 28], FieldFault> {
        read_hash28(value)
    }
}

impl Kind for [u8; 32] {
    type Entry = [u8; 32];

    ghost use Rattle.json_fields.specs.Kinds.{hash32_in};

    ghost reading = { hash32_in };

    fn read(_alloc: Global, value: &Value<'_>) -> Result<[u8; 32], FieldFault> {
        read_hash32(value)
    }
}

impl Kind for TxId {
    type Entry = TxId;

    ghost use Rattle.json_fields.specs.Kinds.{tx_id_in};

    ghost reading = { tx_id_in };

    fn read(_alloc: Global, value: &Value<'_>) -> Result<TxId, FieldFault> {
        read_tx_id(value)
    }
}

impl Kind for PoolId {
    type Entry = PoolId;

    ghost use Rattle.json_fields.specs.Kinds.{pool_id_in};

    ghost reading = { pool_id_in };

    fn read(_alloc: Global, value: &Value<'_>) -> Result<PoolId, FieldFault> {
        read_pool_id(value)
    }
}

impl Kind for Credential {
    type Entry = Credential;

    ghost use Rattle.json_fields.specs.Kinds.{credential_in};

    ghost reading = { credential_in };

    fn read(_alloc: Global, value: &Value<'_>) -> Result<Credential, FieldFault> {
        read_credential(value)
    }
}

impl Kind for Account {
    type Entry = Account;

    ghost use Rattle.json_fields.specs.Kinds.{account_in};

    ghost reading = { account_in };

    fn read(_alloc: Global, value: &Value<'_>) -> Result<Account, FieldFault> {
        read_account(value)
    }
}

impl Kind for Address {
    type Entry = Address;

    ghost use Rattle.json_fields.specs.Kinds.{address_in};

    ghost reading = { address_in };

    fn read(_alloc: Global, value: &Value<'_>) -> Result<Address, FieldFault> {
        read_address(value)
    }
}

impl Kind for AssetName {
    type Entry = AssetName;

    ghost use Rattle.json_fields.specs.Kinds.{asset_name_in};

    ghost reading = { asset_name_in };

    fn read(_alloc: Global, value: &Value<'_>) -> Result<AssetName, FieldFault> {
        read_asset_name(value)
    }
}

impl Kind for OutRef {
    type Entry = OutRef;

    ghost use Rattle.json_fields.specs.Kinds.{ref_in};

    ghost reading = { ref_in };

    fn read(_alloc: Global, value: &Value<'_>) -> Result<OutRef, FieldFault> {
        read_ref(value)
    }
}

impl Kind for ActionId {
    type Entry = ActionId;

    ghost use Rattle.json_fields.specs.Kinds.{action_id_in};

    ghost reading = { action_id_in };

    fn read(_alloc: Global, value: &Value<'_>) -> Result<ActionId, FieldFault> {
        read_action_id(value)
    }
}

impl Kind for Drep {
    type Entry = Drep;

    ghost use Rattle.json_fields.specs.Kinds.{drep_in};

    ghost reading = { drep_in };

    fn read(_alloc: Global, value: &Value<'_>) -> Result<Drep, FieldFault> {
        read_drep(value)
    }
}

impl Kind for Voter {
    type Entry = Voter;

    ghost use Rattle.json_fields.specs.Kinds.{voter_in};

    ghost reading = { voter_in };

    fn read(_alloc: Global, value: &Value<'_>) -> Result<Voter, FieldFault> {
        read_voter(value)
    }
}

impl Kind for Unit {
    type Entry = Unit;

    ghost use Rattle.json_fields.specs.Kinds.{unit_in};

    ghost reading = { unit_in };

    fn read(_alloc: Global, value: &Value<'_>) -> Result<Unit, FieldFault> {
        read_unit(value)
    }
}

impl Kind for Ratio {
    type Entry = Ratio;

    ghost use Rattle.json_fields.specs.Kinds.{ratio_in};

    ghost reading = { ratio_in };

    fn read(_alloc: Global, value: &Value<'_>) -> Result<Ratio, FieldFault> {
        read_ratio(value)
    }
}

/// An array of two entries, each of its kind.
impl<A: Kind, B: Kind> Kind for (A, B) {
    type Entry = (A::Entry, B::Entry);

    ghost use Rattle.json_fields.specs.Entries.{both_in};

    ghost reading = { both_in A.reading B.reading };

    #[tactic(auto, unfolding(crate::specs::Entries::both_in))]
    fn read(alloc: Global, value: &Value<'_>) -> Result<(A::Entry, B::Entry), FieldFault> {
        let (first, second) = read_pair(value)?;
        let first = A::read(alloc, first)?;
        let second = B::read(alloc, second)?;
        Ok((first, second))
    }
}
