ghost use Rattle.std.specs.Prelude.{◌≡◌, IfOk, length};
ghost use Rattle.maps.specs.Maps.{value_at};
ghost use Rattle.gov_ids.specs.Orders.{credential_cmp, pool_cmp};
ghost use Rattle.stake_book.specs.Stakes.{accounts_of};
ghost use Rattle.undo_before.specs.Old.{no_entries, old_at, values_of};

use book_records::{DrepState, Output, Pool, Registered};
use cert_pool::PoolBook;
use committee_book::HotBook;
use drep_book::DrepBook;
use gov_actions::HotState;
use gov_ids::{Credential, OutRef, PoolId, TxId};
use listed::Listed;
use no_memory::NoMemory;
use stake_book::StakeBook;
use std::alloc::Global;
use tx_rule::of_ledger_state::LedgerState;
use undo_records::{OldEntries, OldValues};

/// These old outputs, and no old value at another name.
pub fn outputs_only(alloc: Global, outputs: Listed<(OutRef, Option<Output>)>) -> OldEntries
    ensures { result ≡ record no_entries { outputs = outputs } }
{
    OldEntries {
        outputs,
        accounts: Listed::new(alloc),
        pools: Listed::new(alloc),
        dreps: Listed::new(alloc),
        hot: Listed::new(alloc),
        votes: Listed::new(alloc),
    }
}

/// The values of which a ledger has one, with the id that a transaction uses, if any.
pub fn old_values(s: &LedgerState, unused: Option<TxId>) -> OldValues
    ensures { result ≡ values_of s.now unused }
{
    OldValues {
        slot: s.slot(),
        dormant: s.dreps().dormant(),
        fees: s.fees(),
        donations: s.donations(),
        proposals: s.proposals().len(),
        unused,
        had_pending: s.pending().is_some(),
    }
}

/// The registrations of these accounts.
pub fn old_accounts(
    alloc: Global,
    book: &StakeBook,
    names: &[Credential],
) -> Result<Listed<(Credential, Option<Registered>)>, NoMemory>
    ensures { IfOk result (λ olds. olds ≡ old_at credential_cmp (accounts_of book.now) names.now) }
{
    let mut olds = Vec::new(alloc);
    for c in names {
        olds.push((*c, book.account(c)))?;
    }
    Ok(Listed::from_vec(olds))
}

/// These pools.
pub fn old_pools(
    alloc: Global,
    book: &PoolBook,
    names: &[PoolId],
) -> Result<Listed<(PoolId, Option<Pool>)>, NoMemory>
    ensures { IfOk result (λ olds. olds ≡ old_at pool_cmp book.now names.now) }
{
    let old = |p: &PoolId| -> (PoolId, Option<Pool>)
        ensures { result ≡ (p.now, value_at pool_cmp book.entry.now p.now) }
    { (*p, book.get(p)) };
    let olds = names.iter().map(old).collect(alloc)?;
    Ok(Listed::from_vec(olds))
}

/// These DReps.
pub fn old_dreps(
    alloc: Global,
    book: &DrepBook,
    names: &[Credential],
) -> Result<Listed<(Credential, Option<DrepState>)>, NoMemory>
    ensures { IfOk result (λ olds. olds ≡ old_at credential_cmp book.now.dreps names.now) }
{
    let mut olds = Vec::new(alloc);
    for c in names {
        olds.push((*c, book.get(c)))?;
    }
    Ok(Listed::from_vec(olds))
}

/// What these cold keys authorized.
pub fn old_hot(
    alloc: Global,
    book: &HotBook,
    names: &[Credential],
) -> Result<Listed<(Credential, Option<HotState>)>, NoMemory>
    ensures { IfOk result (λ olds. olds ≡ old_at credential_cmp book.now names.now) }
{
    let mut olds = Vec::new(alloc);
    for c in names {
        olds.push((*c, book.get(c)))?;
    }
    Ok(Listed::from_vec(olds))
}
