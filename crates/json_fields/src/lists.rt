ghost use Rattle.std.specs.Prelude.{◌≡◌, []};
ghost use Rattle.json_tree.specs.View.{view, items_view};
ghost use Rattle.json_fields.specs.Lists.{whole_fault, fault_at, list_in, entries_after, is_full};
ghost use Rattle.json_fields.specs.Reads.{Reads, ReadsList};

use crate::fault::FieldFault;
use crate::readers::read_items;
use json_tree::Value;
use listed::Listed;
use std::alloc::{AllocError, AllocFailed, Global};

/// Why a list cannot be read.
#[derive(Clone, Copy, Debug, PartialEq, Eq)]
pub struct ListFault {
    /// The place of the first bad entry, from 0; none if the value is no list, or memory ran out.
    pub place: Option<u32>,
    /// What is wrong with it.
    pub fault: FieldFault,
}

/// How an entry of a list is read.
pub trait Kind {
    /// What an entry reads as.
    type Entry: Drop;

    ghost use Rattle.std.specs.Prelude.{Result};
    ghost use Rattle.serde_json.specs.Data.{Data};
    ghost use Rattle.json_fields.specs.declared.fault.FieldFault.{FieldFault};

    ghost reading: { Data → Result Self.Entry FieldFault };

    /// Reads the value as an entry.
    fn read(alloc: Global, value: &Value<'_>) -> Result<Self::Entry, FieldFault>
        ensures { Reads result (reading (view value.now)) };
}

impl ListFault {
    /// A fault of the list itself.
    pub fn whole(fault: FieldFault) -> ListFault
        ensures { result ≡ whole_fault fault }
    {
        ListFault { place: None, fault }
    }

    /// A fault of the entry at the place, from 0.
    pub fn at(place: u32, fault: FieldFault) -> ListFault
        ensures { result ≡ fault_at place fault }
    {
        ListFault {
            place: Some(place),
            fault,
        }
    }
}

impl From<AllocError> for ListFault {
    ghost use Rattle.std.specs.Prelude.{◌≡◌, None};
    ghost use Rattle.json_fields.specs.declared.fault.FieldFault.TheVariants as faults;

    ghost from_gives = { λ _ e. e ≡ record { place = None; fault = faults.NoMemory } };

    fn from(_error: AllocError) -> ListFault {
        ListFault::whole(FieldFault::NoMemory)
    }
}

impl<T: Drop> From<AllocFailed<T>> for ListFault {
    ghost use Rattle.std.specs.Prelude.{◌≡◌, None};
    ghost use Rattle.json_fields.specs.declared.fault.FieldFault.TheVariants as faults;

    ghost from_gives = { λ _ e. e ≡ record { place = None; fault = faults.NoMemory } };

    fn from(_error: AllocFailed<T>) -> ListFault {
        ListFault::whole(FieldFault::NoMemory)
    }
}

/// A list of at most `limit` entries.
pub fn read_list<K: Kind>(
    alloc: Global,
    limit: u32,
    value: &Value<'_>,
) -> Result<Listed<K::Entry>, ListFault>
    ensures { ReadsList result (list_in limit K.reading (view value.now)) }
{
    let items = read_items(value).map_err(ListFault::whole)?;
    read_entries::<K>(alloc, limit, items)
}

fn read_entries<K: Kind>(
    alloc: Global,
    limit: u32,
    items: &[Value<'_>],
) -> Result<Listed<K::Entry>, ListFault>
    ensures { ReadsList result (entries_after K.reading (λ before x. is_full limit before) [] (items_view items.now)) }
{
    let mut entries = Listed::new(alloc);
    let mut place = 0u32;
    for item in items {
        let entry = K::read(alloc, item).map_err(|fault| ListFault::at(place, fault))?;
        if place >= limit {
            return Err(ListFault::at(place, FieldFault::OutOfRange));
        }
        entries.push(entry)?;
        place += 1;
    }
    Ok(entries)
}
