ghost use Rattle.std.specs.Prelude.{◌≡◌};
ghost use Rattle.json_tree.specs.View.{view};
ghost use Rattle.record_read.specs.Faults.{fault_in, in_field, in_list};
ghost use Rattle.record_read.specs.Fields.{needed, optional, defaulted, needed_list, needed_distinct_list, optional_list, optional_distinct_list};
ghost use Rattle.record_read.specs.Reads.{ReadsRecord};

use crate::fault::RecordFault;
use gov_ids::Named;
use json_fields::{FieldFault, Kind, ListFault, read_distinct_list, read_list};
use listed::Listed;
use record_members::Members;
use std::alloc::Global;
use tx_records::FieldName;

/// The fault of a field, with the place of the bad entry. Out of memory: the fault of no field.
fn fault_in(name: FieldName, place: Option<u32>, fault: FieldFault) -> RecordFault
    ensures { result ≡ fault_in name place fault }
{
    match fault {
        FieldFault::NoMemory => RecordFault::NoMemory,
        _ => RecordFault::BadField { name, place },
    }
}

/// The value, or its fault as that of the field.
fn in_field<T>(name: FieldName, read: Result<T, FieldFault>) -> Result<T, RecordFault>
    ensures { result ≡ in_field name read }
{
    match read {
        Ok(value) => Ok(value),
        Err(fault) => Err(fault_in(name, None, fault)),
    }
}

/// The list, or its fault as that of the field.
fn in_list<T>(name: FieldName, read: Result<Listed<T>, ListFault>) -> Result<Listed<T>, RecordFault>
    ensures { result ≡ in_list name read }
{
    match read {
        Ok(items) => Ok(items),
        Err(error) => Err(fault_in(name, error.place, error.fault)),
    }
}

/// A field that has to be there.
pub fn needed_field<K: Kind>(
    alloc: Global,
    object: &Members<'_, '_>,
    name: FieldName,
) -> Result<K::Entry, RecordFault>
    ensures { ReadsRecord result (needed name K.reading (view object.now)) }
{
    let value = in_field(name, object.field(name))?;
    in_field(name, K::read(alloc, value))
}

/// A field that may be absent or null.
pub fn optional_field<K: Kind>(
    alloc: Global,
    object: &Members<'_, '_>,
    name: FieldName,
) -> Result<Option<K::Entry>, RecordFault>
    ensures { ReadsRecord result (optional name K.reading (view object.now)) }
{
    match in_field(name, object.optional_field(name))? {
        Some(value) => Ok(Some(in_field(name, K::read(alloc, value))?)),
        None => Ok(None),
    }
}

/// A field that counts as `default` where it is absent or null.
pub fn defaulted_field<K: Kind>(
    alloc: Global,
    object: &Members<'_, '_>,
    name: FieldName,
    default: K::Entry,
) -> Result<K::Entry, RecordFault>
    ensures { ReadsRecord result (defaulted default name K.reading (view object.now)) }
{
    let found = optional_field::<K>(alloc, object, name)?;
    Ok(found.unwrap_or(default))
}

/// A list of at most `limit` entries, in a field that has to be there.
pub fn needed_list<K: Kind>(
    alloc: Global,
    object: &Members<'_, '_>,
    name: FieldName,
    limit: u32,
) -> Result<Listed<K::Entry>, RecordFault>
    ensures { ReadsRecord result (needed_list name limit K.reading (view object.now)) }
{
    let value = in_field(name, object.field(name))?;
    in_list(name, read_list::<K>(alloc, limit, value))
}

/// A list of at most `limit` entries, each with its own name, in a field that has to be there.
pub fn needed_distinct_list<K: Kind>(
    alloc: Global,
    object: &Members<'_, '_>,
    name: FieldName,
    limit: u32,
) -> Result<Listed<K::Entry>, RecordFault>
where
    K::Entry: Named,
    ensures { ReadsRecord result
        (needed_distinct_list name K.Entry.Name.order K.Entry.name limit K.reading (view object.now)) }
{
    let value = in_field(name, object.field(name))?;
    in_list(name, read_distinct_list::<K>(alloc, limit, value))
}

/// A list of at most `limit` entries, in a field that may be absent or null.
pub fn optional_list<K: Kind>(
    alloc: Global,
    object: &Members<'_, '_>,
    name: FieldName,
    limit: u32,
) -> Result<Listed<K::Entry>, RecordFault>
    ensures { ReadsRecord result (optional_list name limit K.reading (view object.now)) }
{
    match in_field(name, object.optional_field(name))? {
        Some(value) => in_list(name, read_list::<K>(alloc, limit, value)),
        None => Ok(Listed::new(alloc)),
    }
}

/// At most `limit` entries, each with its own name, in a field that may be absent or null.
pub fn optional_distinct_list<K: Kind>(
    alloc: Global,
    object: &Members<'_, '_>,
    name: FieldName,
    limit: u32,
) -> Result<Listed<K::Entry>, RecordFault>
where
    K::Entry: Named,
    ensures { ReadsRecord result
        (optional_distinct_list name K.Entry.Name.order K.Entry.name limit K.reading (view object.now)) }
{
    match in_field(name, object.optional_field(name))? {
        Some(value) => in_list(name, read_distinct_list::<K>(alloc, limit, value)),
        None => Ok(Listed::new(alloc)),
    }
}
