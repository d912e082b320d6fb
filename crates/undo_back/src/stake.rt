ghost use Rattle.std.specs.Prelude.{◌≡◌, ◌+◌, ◌≤◌, OnOk};
ghost use Rattle.book_records.specs.Outputs.{lovelace_in};
ghost use Rattle.coin_frac.specs.declared.TheConstants.{SUPPLY_LIMIT};
ghost use Rattle.gov_ids.specs.Orders.{credential_cmp, outref_cmp};
ghost use Rattle.maps.specs.Maps.{IsMap};
ghost use Rattle.maps.specs.Replaced.{with_option};
ghost use Rattle.stake_book.specs.Stakes.{accounts_of, balances_in};
ghost use Rattle.undo_back.specs.Steps.{AccountsFit, OutputsFit, without_named};
ghost use Rattle.undo_back.specs.Undoable.{AreHoldingsOld};
ghost use Rattle.undo_model.specs.Undone.{with_old, without_unused};
ghost use Rattle.view_map.specs.View.{frozen_of};

use book_records::{Output, Registered};
use gov_ids::{Credential, OutRef, TxId};
use listed::Listed;
use no_memory::NoMemory;
use stake_book::StakeBook;

/// Puts old outputs and accounts back. What is at their names leaves first, so that there is room.
/// After `NoMemory` the caller drops the book.
pub(crate) fn restore_holdings(
    stake: &mut StakeBook,
    outputs: Listed<(OutRef, Option<Output>)>,
    accounts: &[(Credential, Option<Registered>)],
) -> Result<(), NoMemory>
    requires { AreHoldingsOld outputs accounts.now stake.old }
    ensures outputs { OnOk result (stake.new.outputs ≡
        record stake.old.outputs { outputs = with_old outref_cmp outputs stake.old.outputs.outputs }) }
    ensures accounts { OnOk result (accounts_of stake.new ≡ with_old credential_cmp accounts.now (accounts_of stake.old)) }
    ensures frozen { OnOk result (frozen_of credential_cmp stake.new.accounts ≡ frozen_of credential_cmp stake.old.accounts) }
{
    // its outputs and accounts are in order
    let _total = stake.outputs().total();
    take_outputs(stake, outputs.as_slice())?;
    end_accounts(stake, accounts)?;
    put_accounts(stake, accounts)?;
    put_outputs(stake, outputs)
}

// Spends the outputs at these names.
fn take_outputs(stake: &mut StakeBook, olds: &[(OutRef, Option<Output>)]) -> Result<(), NoMemory>
    ensures outputs { OnOk result (stake.new.outputs ≡
        record stake.old.outputs { outputs = without_named outref_cmp olds.now stake.old.outputs.outputs }) }
    ensures accounts { OnOk result (accounts_of stake.new ≡ accounts_of stake.old) }
    ensures frozen { OnOk result (frozen_of credential_cmp stake.new.accounts ≡ frozen_of credential_cmp stake.old.accounts) }
{
    for (r, _) in olds {
        stake.spend(r)?;
    }
    Ok(())
}

// Ends the registrations of these names.
fn end_accounts(
    stake: &mut StakeBook,
    olds: &[(Credential, Option<Registered>)],
) -> Result<(), NoMemory>
    ensures accounts { OnOk result (accounts_of stake.new ≡ without_named credential_cmp olds.now (accounts_of stake.old)) }
    ensures outputs { OnOk result (stake.new.outputs ≡ stake.old.outputs) }
    ensures frozen { OnOk result (frozen_of credential_cmp stake.new.accounts ≡ frozen_of credential_cmp stake.old.accounts) }
{
    for (c, _) in olds {
        // there is room for what is held
        let _balances = stake.balances();
        stake.set_account(*c, None)?;
    }
    Ok(())
}

// Sets the registrations of these names, one after another.
fn put_accounts(
    stake: &mut StakeBook,
    olds: &[(Credential, Option<Registered>)],
) -> Result<(), NoMemory>
    requires room { AccountsFit (lovelace_in stake.old.outputs.outputs) olds.now (accounts_of stake.old) }
    ensures accounts { OnOk result (accounts_of stake.new ≡ with_old credential_cmp olds.now (accounts_of stake.old)) }
    ensures outputs { OnOk result (stake.new.outputs ≡ stake.old.outputs) }
    ensures frozen { OnOk result (frozen_of credential_cmp stake.new.accounts ≡ frozen_of credential_cmp stake.old.accounts) }
{
    for (c, to) in olds {
        stake.set_account(*c, *to)?;
    }
    Ok(())
}

// Sets the outputs at these names, one after another.
fn put_outputs(
    stake: &mut StakeBook,
    olds: Listed<(OutRef, Option<Output>)>,
) -> Result<(), NoMemory>
    requires in_order { IsMap outref_cmp stake.old.outputs.outputs }
    requires room { OutputsFit (balances_in (accounts_of stake.old)) olds stake.old.outputs.outputs }
    ensures outputs { OnOk result (stake.new.outputs ≡
        record stake.old.outputs { outputs = with_old outref_cmp olds stake.old.outputs.outputs }) }
    ensures accounts { OnOk result (accounts_of stake.new ≡ accounts_of stake.old) }
    ensures frozen { OnOk result (frozen_of credential_cmp stake.new.accounts ≡ frozen_of credential_cmp stake.old.accounts) }
{
    for (r, to) in olds.into_vec() {
        put_output(stake, r, to)?;
    }
    Ok(())
}

// The output at a reference becomes `to`.
fn put_output(stake: &mut StakeBook, r: OutRef, to: Option<Output>) -> Result<(), NoMemory>
    requires in_order { IsMap outref_cmp stake.old.outputs.outputs }
    requires room { lovelace_in (with_option outref_cmp r to stake.old.outputs.outputs)
        + balances_in (accounts_of stake.old) ≤ SUPPLY_LIMIT }
    ensures outputs { OnOk result (stake.new.outputs ≡
        record stake.old.outputs { outputs = with_option outref_cmp r to stake.old.outputs.outputs }) }
    ensures accounts { OnOk result (accounts_of stake.new ≡ accounts_of stake.old) }
    ensures frozen { OnOk result (frozen_of credential_cmp stake.new.accounts ≡ frozen_of credential_cmp stake.old.accounts) }
{
    stake.spend(&r)?;
    match to {
        Some(output) => stake.add(r, output),
        None => Ok(()),
    }
}

/// Removes an id from the used ones, if there is one to remove.
pub(crate) fn forget_id(stake: &mut StakeBook, unused: &Option<TxId>)
    ensures used { stake.new.outputs ≡
        record stake.old.outputs { used = without_unused unused.now stake.old.outputs.used } }
    ensures accounts { accounts_of stake.new ≡ accounts_of stake.old }
    ensures frozen { frozen_of credential_cmp stake.new.accounts ≡ frozen_of credential_cmp stake.old.accounts }
{
    if let Some(id) = unused {
        stake.unmark(id);
    }
}
