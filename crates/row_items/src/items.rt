ghost use Rattle.std.specs.Prelude.{◌≡◌, ◌++◌, ◌∷◌, true, [], map, option_map, IfOk, OnOk};
ghost use Rattle.std.specs.List.{list_all};
ghost use Rattle.shown_lists.specs.Only.{IsOnly};

use no_memory::NoMemory;
use std::alloc::Global;

/// Items that rows show, each its own.
pub trait RowKind {
    /// What lines say of an item.
    type Row;
    /// What it is made again as.
    type Item: Drop;

    ghost use Rattle.std.specs.Prelude.{◌≡◌, Bool, true, IfOk};
    ghost use Rattle.shown_lists.specs.Only.{IsOnly};

    // the row that shows an item
    ghost shows: { Self.Item → Self.Row };

    // which items are made again
    ghost form: { Self.Item → Bool };

    /// The one item of the form that this row shows, if there is one. `NoMemory` may come at any
    /// time.
    fn item_of(alloc: Global, shown: &Self::Row) -> Result<Option<Self::Item>, NoMemory>
        ensures { IfOk result (IsOnly (λ x. form x ≡ true) shows shown.now) };
}

/// Adds an item.
fn keep<T: Drop>(items: &mut Vec<T>, item: T) -> Result<(), NoMemory>
    ensures { OnOk result (items.new.items ≡ items.old.items ++ item ∷ []) }
{
    items.push(item)?;
    Ok(())
}

/// The items of the form that these rows show, if there are such. `NoMemory` may come at any time.
pub fn items_of<K: RowKind>(
    alloc: Global,
    rows: &[K::Row],
) -> Result<Option<Vec<K::Item>>, NoMemory>
    ensures { IfOk result (λ r. IsOnly (λ xs. list_all K.form xs ≡ true) (map K.shows) rows.now (option_map (λ v. v.items) r)) }
{
    let mut items = Vec::new(alloc);
    for row in rows {
        match K::item_of(alloc, row)? {
            Some(item) => keep(&mut items, item)?,
            None => return Ok(None),
        }
    }
    Ok(Some(items))
}
