//! A map with its frozen list: the changes after a freeze, and the notes of them.
use coin_frac::NoMemory;
use std::alloc::Global;
use std::test::Fail;
use view_map::ViewMap;

/// 1 to 10 and 2 to 20, frozen, and five changes after the freeze.
fn changed(alloc: Global) -> Result<ViewMap<u64, u64>, NoMemory> {
    let mut view = ViewMap::new(alloc);
    view.put(1, 10)?;
    view.put(2, 20)?;
    view.freeze();
    view.put(1, 11)?;
    view.put(1, 12)?;
    view.remove(&2)?;
    view.put(2, 21)?;
    view.put(0, 5)?;
    Ok(view)
}

#[test]
fn shows_both_lists(rt: HostRuntime) -> Result<(), Fail> {
    let mut view = changed(rt.alloc())?;
    assert!(rt; view.frozen_next(None) == Some((1, 10)));
    assert!(rt; view.frozen_next(Some(&1)) == Some((2, 20)));
    assert!(rt; view.frozen_next(Some(&2)) == None);
    assert!(rt; (view.frozen_get(&0), view.get(&2)) == (None, Some(21)));
    assert!(rt; view.frozen_len() == 2);
    view.freeze();
    assert!(rt; view.frozen_len() == 3);
    assert!(rt; view.frozen_get(&0) == Some(5));
    Ok(())
}

/// A key that changed, one that did not, one that is not live, and a new one; and an absence.
#[test]
fn notes_what_was_there(rt: HostRuntime) -> Result<(), Fail> {
    let mut view = changed(rt.alloc())?;
    view.put(3, 30)?;
    view.remove(&2)?;
    for (key, first) in [
        (1, Some(13)),
        (2, Some(23)),
        (3, Some(33)),
        (4, Some(43)),
        (2, None),
    ] {
        let live = view.get(&key);
        view.note_first(key, first)?;
        assert!(rt; (view.frozen_get(&key), view.get(&key)) == (first, live));
    }
    assert!(rt; view.frozen_next(Some(&1)) == Some((3, 33)));
    assert!(rt; view.frozen_len() == 3);
    Ok(())
}

/// How many keys the map of a long run has.
const KEYS: usize = 16;

/// The value of each key, none without an entry.
type Values = [Option<u64>; KEYS];

/// One of the changes of a `ViewMap`.
enum Change {
    Put(u64),
    Remove,
    Note(Option<u64>),
    Freeze,
}

/// The key and the change of a number.
fn change_of(number: u64) -> (u64, Change) {
    let change = match (number >> 40) % 16 {
        0..=7 => Change::Put(number),
        8..=11 => Change::Remove,
        12..=13 => Change::Note(Some(number)),
        14 => Change::Note(None),
        _ => Change::Freeze,
    };
    (number >> 60, change)
}

/// Sets the value of a key.
fn set(values: &mut Values, key: u64, to: Option<u64>) {
    if let Some(value) = values.get_mut(key as usize) {
        *value = to;
    }
}

/// The value of a key.
fn value(values: &Values, key: u64) -> Option<u64> {
    values.get(key as usize).copied().flatten()
}

/// Changes a map, and the plain lists that it is to show.
fn make(
    change: Change,
    key: u64,
    view: &mut ViewMap<u64, u64>,
    live: &mut Values,
    frozen: &mut Values,
) -> Result<(), NoMemory> {
    match change {
        Change::Put(to) => {
            view.put(key, to)?;
            set(live, key, Some(to));
        }
        Change::Remove => {
            view.remove(&key)?;
            set(live, key, None);
        }
        Change::Note(first) => {
            view.note_first(key, first)?;
            set(frozen, key, first);
        }
        Change::Freeze => {
            view.freeze();
            *frozen = *live;
        }
    }
    Ok(())
}

/// A hundred thousand changes in no order, on few keys, beside two plain lists.
#[test]
fn agrees_with_plain_lists(rt: HostRuntime) -> Result<(), Fail> {
    let mut view = ViewMap::new(rt.alloc());
    let mut live = [None; KEYS];
    let mut frozen = [None; KEYS];
    let mut number = 1u64;
    for _ in 0..100_000 {
        number = number
            .wrapping_mul(6_364_136_223_846_793_005)
            .wrapping_add(1_442_695_040_888_963_407);
        let (key, change) = change_of(number);
        make(change, key, &mut view, &mut live, &mut frozen)?;
        assert!(rt; view.get(&key) == value(&live, key));
        assert!(rt; view.frozen_get(&key) == value(&frozen, key));
        assert!(rt; view.frozen_len() == frozen.iter().flatten().count() as u64);
    }
    Ok(())
}
