ghost use Rattle.std.specs.Prelude.{◌≡◌, []};
ghost use Rattle.json_tree.specs.View.{view, items_view};
ghost use Rattle.json_fields.specs.Lists.{distinct_list_in, entries_after, is_known_or_full};
ghost use Rattle.json_fields.specs.Reads.{ReadsList};

use crate::fault::FieldFault;
use crate::lists::{Kind, ListFault};
use crate::readers::read_items;
use gov_ids::Named;
use json_tree::Value;
use listed::Listed;
use std::alloc::Global;
use std::collections::BTreeSet;

/// A list of at most `limit` entries, each with a name of its own.
pub fn read_distinct_list<K: Kind>(
    alloc: Global,
    limit: u32,
    value: &Value<'_>,
) -> Result<Listed<K::Entry>, ListFault>
where
    K::Entry: Named,
    ensures { ReadsList result (distinct_list_in K.Entry.Name.order K.Entry.name limit K.reading (view value.now)) }
{
    let items = read_items(value).map_err(ListFault::whole)?;
    read_named_entries::<K>(alloc, limit, items)
}

fn read_named_entries<K: Kind>(
    alloc: Global,
    limit: u32,
    items: &[Value<'_>],
) -> Result<Listed<K::Entry>, ListFault>
where
    K::Entry: Named,
    ensures { ReadsList result
        (entries_after K.reading (is_known_or_full K.Entry.Name.order K.Entry.name limit) [] (items_view items.now)) }
{
    let mut entries = Listed::new(alloc);
    let mut names = BTreeSet::new(alloc);
    let mut place = 0u32;
    for item in items {
        let entry = K::read(alloc, item).map_err(|fault| ListFault::at(place, fault))?;
        let is_new = names.insert(entry.name())?;
        if !is_new || place >= limit {
            return Err(ListFault::at(place, FieldFault::OutOfRange));
        }
        entries.push(entry)?;
        place += 1;
    }
    Ok(entries)
}
