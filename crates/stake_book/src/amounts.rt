ghost use Rattle.std.specs.Prelude.{◌≡◌, ◌+◌, ◌≤◌, ◌<◌, ◌^◌, Some, OnOk, OnErr};
ghost use Rattle.coin_frac.specs.Totals.{total_of};
ghost use Rattle.stake_book.specs.Sums.{IsRaised, amount_at};

use coin_frac::NoMemory;
use std::collections::BTreeMap;

/// Adds to the amount of a key, in one search. Without a key, or for 0, nothing changes.
/// `NoMemory` changes nothing.
pub fn raise<K: Copy + Ord>(
    amounts: &mut BTreeMap<K, u64>,
    key: Option<K>,
    gained: u64,
) -> Result<(), NoMemory>
    requires fits { total_of amounts.old.entries + gained < 2 ^ 64 }
    ensures ok { OnOk result (IsRaised K.cmp key gained amounts.old.entries amounts.new.entries) }
    ensures err { OnErr result (amounts.new.entries ≡ amounts.old.entries) }
{
    if gained == 0 {
        return Ok(());
    }
    let Some(k) = key else {
        return Ok(());
    };
    let amount = amounts.entry(k)?.or_insert(0);
    *amount += gained;
    Ok(())
}

/// Takes from the amount of a key, and removes the key at 0. It takes no memory.
/// Without a key, or for 0, nothing changes.
pub fn lower<K: Copy + Ord>(amounts: &mut BTreeMap<K, u64>, key: Option<K>, lost: u64)
    requires enough { (k : K) → key ≡ Some k → lost ≤ amount_at K.cmp amounts.old.entries k }
    ensures { IsRaised K.cmp key lost amounts.new.entries amounts.old.entries }
{
    if lost == 0 {
        return;
    }
    let Some(k) = key else {
        return;
    };
    let Some(amount) = amounts.get_mut(&k) else {
        return;
    };
    let left = *amount - lost;
    *amount = left;
    if left == 0 {
        amounts.remove(&k);
    }
}
