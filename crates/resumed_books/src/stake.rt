//! The book of outputs and accounts.
ghost use Rattle.std.specs.Prelude.{◌≡◌, ◌+◌, ◌≤◌, [], IfOk};
ghost use Rattle.book_records.specs.Outputs.{lovelace_in};
ghost use Rattle.coin_frac.specs.declared.TheConstants.{SUPPLY_LIMIT};
ghost use Rattle.gov_ids.specs.Orders.{credential_cmp, outref_cmp, txid_cmp};
ghost use Rattle.stake_book.specs.Stakes.{accounts_of, balances_in, with_used};
ghost use Rattle.maps.specs.Maps.{IsMap, IsSet};
ghost use Rattle.view_map.specs.View.{frozen_of};

use crate::frozen::with_frozen;
use book_records::{Entry, Output, Registered};
use coin_frac::NoMemory;
use gov_ids::{Credential, OutRef, TxId};
use hash_seed::HashSeed;
use listed::Listed;
use stake_book::StakeBook;
use std::alloc::Global;

/// The book of these accounts, outputs and used ids, with these entries at the last freeze.
/// Accounts and entries are in order of credentials; amounts are in lovelace. `NoMemory` may come
/// at any time.
pub fn stake_of(
    alloc: Global,
    seed: HashSeed,
    accounts: Listed<(Credential, Registered)>,
    outputs: Listed<(OutRef, Output)>,
    used: Listed<TxId>,
    entries: Listed<(Credential, Entry)>,
) -> Result<StakeBook, NoMemory>
    requires accounts { IsMap credential_cmp accounts }
    requires outputs { IsMap outref_cmp outputs }
    requires used { IsSet txid_cmp used }
    requires entries { IsMap credential_cmp entries }
    requires room { lovelace_in outputs + balances_in accounts ≤ SUPPLY_LIMIT }
    ensures outputs { IfOk result (λ stake. stake.outputs ≡ record { outputs = outputs; used = used }) }
    ensures accounts { IfOk result (λ stake. accounts_of stake ≡ accounts) }
    ensures frozen { IfOk result (λ stake. frozen_of credential_cmp stake.accounts ≡ entries) }
{
    let stake = of_accounts(alloc, seed, accounts)?;
    let stake = with_outputs(stake, outputs)?;
    let stake = with_used(stake, used)?;
    with_frozen(alloc, stake, entries)
}

/// The book of these accounts, with no output and no used id.
fn of_accounts(
    alloc: Global,
    seed: HashSeed,
    accounts: Listed<(Credential, Registered)>,
) -> Result<StakeBook, NoMemory>
    requires in_order { IsMap credential_cmp accounts }
    requires room { balances_in accounts ≤ SUPPLY_LIMIT }
    ensures outputs { IfOk result (λ stake. stake.outputs ≡ record { outputs = []; used = [] }) }
    ensures accounts { IfOk result (λ stake. accounts_of stake ≡ accounts) }
{
    let mut stake = StakeBook::new(alloc, seed);
    for (credential, registered) in accounts.as_slice() {
        stake.set_account(*credential, Some(*registered))?;
    }
    Ok(stake)
}

/// The book with these outputs, if it has none.
fn with_outputs(stake: StakeBook, outputs: Listed<(OutRef, Output)>) -> Result<StakeBook, NoMemory>
    requires in_order { IsMap outref_cmp outputs }
    requires none { stake.outputs.outputs ≡ [] }
    requires room { lovelace_in outputs + balances_in (accounts_of stake) ≤ SUPPLY_LIMIT }
    ensures outputs { IfOk result (λ after. after.outputs ≡ record stake.outputs { outputs = outputs }) }
    ensures accounts { IfOk result (λ after. accounts_of after ≡ accounts_of stake) }
{
    let mut stake = stake;
    for (at, output) in outputs.into_vec() {
        stake.add(at, output)?;
    }
    Ok(stake)
}

/// The book with these used ids, if it has none.
fn with_used(stake: StakeBook, used: Listed<TxId>) -> Result<StakeBook, NoMemory>
    requires in_order { IsSet txid_cmp used }
    requires none { stake.outputs.used ≡ [] }
    ensures { IfOk result (λ after. after ≡ with_used used stake) }
{
    let mut stake = stake;
    for id in used.as_slice() {
        stake.mark_used(*id)?;
    }
    Ok(stake)
}
