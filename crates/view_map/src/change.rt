ghost use Rattle.std.specs.Prelude.{◌≡◌, IfOk, OnOk, OnErr, Some, None, option_map};
ghost use Rattle.std.specs.Option.{option_and_then};
ghost use Rattle.maps.specs.Maps.{value_at};
ghost use Rattle.maps.specs.Replaced.{with_option};
ghost use Rattle.view_map.specs.Marks.{kept_with, unchanged_value};
ghost use Rattle.view_map.specs.View.{key_in};

use no_memory::NoMemory;
use std::collections::BTreeMap;
use std::collections::btree_map::Entry;

/// What is kept beside the entries of a map, as their sums, and follows each change `C` of a value.
pub trait Follower<V, C> {
    ghost use Rattle.std.specs.Prelude.{◌≡◌, Option, IfOk, OnOk, OnErr};

    // when a change of a value can be followed
    ghost can_follow: { Self → C → Option V → Type 0 };

    // what the change makes of the value
    ghost value_after: { C → Option V → Option V };

    // the follower before and after a value became another one
    ghost has_followed: { Self → Option V → Option V → Self → Type 0 };

    /// Returns what a value becomes by a change, and follows it; none is no entry.
    /// `NoMemory` follows no change.
    fn follow(&mut self, by: &C, before: Option<V>) -> Result<Option<V>, NoMemory>
        requires { can_follow self.old by.now before }
        ensures value { IfOk result (λ after. after ≡ value_after by.now before) }
        ensures ok { OnOk result (has_followed self.old before (value_after by.now before) self.new) }
        ensures err { OnErr result (has_followed self.old before before self.new) };

    // a value that stays is followed by nothing
    ghost follows_nothing: { (s : Self) (v : Option V) → has_followed s v v s };
}

// What a value becomes. The entry that its key had at the freeze is kept, if it has not changed.
fn keep_and_follow<K: Copy + Ord, V: Copy, C, S: Follower<V, C>>(
    kept: &mut BTreeMap<K, V>,
    mark: u64,
    k: K,
    before: (V, u64),
    by: &C,
    follower: &mut S,
) -> Result<Option<V>, NoMemory>
    requires { S.can_follow follower.old by.now (Some before.0) }
    ensures value { IfOk result (λ after. after ≡ S.value_after by.now (Some before.0)) }
    ensures kept { OnOk result (kept.new.entries ≡ kept_with K.cmp k (unchanged_value mark before) kept.old.entries) }
    ensures follower { OnOk result (S.has_followed follower.old (Some before.0) (S.value_after by.now (Some before.0)) follower.new) }
    ensures err { OnErr result (kept.new.entries ≡ kept.old.entries) }
    ensures follower_err { OnErr result (S.has_followed follower.old (Some before.0) (Some before.0) follower.new) }
{
    let (value, since) = before;
    if since == mark {
        return follower.follow(by, Some(value));
    }
    match kept.entry(k)? {
        Entry::Occupied(entry) => {
            let after = follower.follow(by, Some(value))?;
            *entry.into_mut() = value;
            Ok(after)
        }
        Entry::Vacant(entry) => {
            let first = entry.insert_entry(value);
            match follower.follow(by, Some(value)) {
                Ok(after) => Ok(after),
                Err(error) => {
                    first.remove();
                    Err(error)
                }
            }
        }
    }
}

/// Changes the entry of a key, in one search, and returns its value before.
/// For the time being a new entry has the value `blank`.
pub fn change_in<K: Copy + Ord, V: Copy, C, S: Follower<V, C>>(
    live: &mut BTreeMap<K, (V, u64)>,
    kept: &mut BTreeMap<K, V>,
    mark: u64,
    k: K,
    blank: V,
    by: &C,
    follower: &mut S,
) -> Result<Option<V>, NoMemory>
    requires { S.can_follow follower.old by.now (option_map (λ v. v.0) (value_at K.cmp live.old.entries k)) }
    ensures value { IfOk result (λ v. v ≡ option_map (λ v. v.0) (value_at K.cmp live.old.entries k)) }
    ensures live { OnOk result (live.new.entries ≡ with_option K.cmp k
        (option_map (λ v. (v, mark)) (S.value_after by.now (option_map (λ v. v.0) (value_at K.cmp live.old.entries k))))
        live.old.entries) }
    ensures kept { OnOk result (kept.new.entries ≡ kept_with K.cmp (key_in K.cmp live.old.entries k)
        (option_and_then (unchanged_value mark) (value_at K.cmp live.old.entries k)) kept.old.entries) }
    ensures follower { OnOk result (S.has_followed follower.old
        (option_map (λ v. v.0) (value_at K.cmp live.old.entries k))
        (S.value_after by.now (option_map (λ v. v.0) (value_at K.cmp live.old.entries k))) follower.new) }
    ensures live_err { OnErr result (live.new.entries ≡ live.old.entries) }
    ensures kept_err { OnErr result (kept.new.entries ≡ kept.old.entries) }
    ensures follower_err { OnErr result (S.has_followed follower.old
        (option_map (λ v. v.0) (value_at K.cmp live.old.entries k))
        (option_map (λ v. v.0) (value_at K.cmp live.old.entries k)) follower.new) }
{
    match live.entry(k)? {
        Entry::Occupied(entry) => {
            let key = *entry.key();
            let before = *entry.get();
            match keep_and_follow(kept, mark, key, before, by, follower)? {
                Some(v) => {
                    *entry.into_mut() = (v, mark);
                }
                None => {
                    entry.remove();
                }
            }
            Ok(Some(before.0))
        }
        Entry::Vacant(entry) => {
            let mut entry = entry.insert_entry((blank, mark));
            match follower.follow(by, None) {
                Ok(Some(v)) => {
                    entry.insert((v, mark));
                    Ok(None)
                }
                Ok(None) => {
                    entry.remove();
                    Ok(None)
                }
                Err(error) => {
                    entry.remove();
                    Err(error)
                }
            }
        }
    }
}
