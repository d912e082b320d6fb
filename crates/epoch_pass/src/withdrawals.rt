ghost use Rattle.std.specs.Prelude.{◌≡◌, ◌≤◌, map, IfOk};
ghost use Rattle.epoch_pass.specs.Removals.{paid_by};
ghost use Rattle.epoch_pass.specs.Reported.{by_credential, paid_in};
ghost use Rattle.ledger_books.specs.Parts.{HoldsSupply, IsStep, frozen_entries, ledger_of_books};
ghost use Rattle.ledger_model.specs.Moves.{IsMovedBy};
ghost use Rattle.ledger_model.specs.Supply.{pots_of};
ghost use Rattle.payments.specs.Amounts.{claimed_of};
ghost use Rattle.payments.specs.Credited.{ArePaidFrom};
ghost use Rattle.run_model.specs.Boundary.{claimed, withdrawals_paid};
ghost use Rattle.run_model.specs.BoundaryFlows.{flows_of_targets};
ghost use Rattle.run_model.specs.World.{on_ledger};
ghost use Rattle.stake_book.specs.Stakes.{AreKept, HasRoom, accounts_of};

use crate::reports::paid_of;
use epoch_balance::payments_balance;
use gov_actions::EnactState;
use gov_ids::{Account, Credential};
use ledger_books::{Books, with_treasury};
use listed::Boxed;
use no_memory::NoMemory;
use payments::pay_registered;
use stake_book::StakeBook;
use std::alloc::Global;
use tx_balance::moves_keep_supply;
use tx_records::Paid;

/// Step 5: the treasury pays the targets of enacted withdrawals whose accounts are registered.
/// The amounts of the others stay there. Returns the report of each target, in their order.
/// (ENACT and EPOCH of the formal specification)
pub fn withdrawals_paid(
    alloc: Global,
    b: Books,
    targets: &[(Account, u64)],
) -> Result<(Books, Vec<Paid>), NoMemory>
    requires holds { HoldsSupply b }
    requires covered { claimed (ledger_of_books b) (by_credential targets.now) ≤ b.state.treasury }
    ensures world { IfOk result (λ r. IsStep (on_ledger (withdrawals_paid (by_credential targets.now))) b r.0) }
    ensures paid { IfOk result (λ r. r.1.items ≡ map (paid_in (ledger_of_books b)) targets.now) }
    ensures frozen { IfOk result (λ r. frozen_entries r.0 ≡ frozen_entries b) }
    ensures holds { IfOk result (λ r. HoldsSupply r.0) }
    ensures moved { IfOk result (λ r. IsMovedBy (flows_of_targets (ledger_of_books b) (by_credential targets.now))
        (pots_of (ledger_of_books b)) (pots_of (ledger_of_books r.0))) }
{
    moves_keep_supply();
    payments_balance();
    match withdrawn(alloc, b.stake, b.state, targets) {
        Ok((stake, state, paid)) => Ok((Books { stake, state, ..b }, paid)),
        Err(error) => {
            // dropped in one call: a `?` would prove it part by part
            drop((b.pools, b.dreps, b.hot, b.proposals, b.snapshots, b.pending));
            Err(error)
        }
    }
}

// The accounts and the state after the treasury paid the targets; each target is reported.
fn withdrawn(
    alloc: Global,
    stake: StakeBook,
    state: Boxed<EnactState>,
    targets: &[(Account, u64)],
) -> Result<(StakeBook, Boxed<EnactState>, Vec<Paid>), NoMemory>
    requires room { HasRoom (claimed_of (accounts_of stake) (by_credential targets.now)) stake }
    requires covered { claimed_of (accounts_of stake) (by_credential targets.now) ≤ state.treasury }
    ensures paid { IfOk result (λ r. ArePaidFrom (by_credential targets.now) stake state r.0 r.1) }
    ensures reported { IfOk result (λ r. r.2.items ≡ map (paid_by (accounts_of stake)) targets.now) }
    ensures kept { AreKept stake }
{
    let (payments, paid) = due(alloc, &stake, targets)?;
    let (stake, state) = paid_from(alloc, stake, state, payments.as_slice())?;
    Ok((stake, state, paid))
}

// The targets by credential, and the report of each.
fn due(
    alloc: Global,
    stake: &StakeBook,
    targets: &[(Account, u64)],
) -> Result<(Vec<(Credential, u64)>, Vec<Paid>), NoMemory>
    ensures payments { IfOk result (λ r. r.0.items ≡ by_credential targets.now) }
    ensures paid { IfOk result (λ r. r.1.items ≡ map (paid_by (accounts_of stake.now)) targets.now) }
{
    let paid = paid_of(alloc, stake, targets)?;
    let payments = by_credential(alloc, targets)?;
    Ok((payments, paid))
}

// The targets by credential.
fn by_credential(
    alloc: Global,
    targets: &[(Account, u64)],
) -> Result<Vec<(Credential, u64)>, NoMemory>
    ensures { IfOk result (λ l. l.items ≡ by_credential targets.now) }
{
    Ok(
        targets
            .iter()
            .map(|(account, amount)| (account.cred, *amount))
            .collect(alloc)?,
    )
}

// The accounts and the state after the treasury paid.
fn paid_from(
    alloc: Global,
    stake: StakeBook,
    state: Boxed<EnactState>,
    payments: &[(Credential, u64)],
) -> Result<(StakeBook, Boxed<EnactState>), NoMemory>
    requires room { HasRoom (claimed_of (accounts_of stake) payments.now) stake }
    requires covered { claimed_of (accounts_of stake) payments.now ≤ state.treasury }
    ensures paid { IfOk result (λ r. ArePaidFrom payments.now stake state r.0 r.1) }
    ensures kept { AreKept stake }
{
    let (stake, paid) = pay_registered(stake, payments)?;
    let treasury = state.get().treasury - paid;
    Ok((stake, with_treasury(alloc, state, treasury)?))
}
