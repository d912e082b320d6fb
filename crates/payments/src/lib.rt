//! Payments of a boundary to accounts: rewards, refunds of deposits, enacted withdrawals.
#![tactic(auto)]

ghost use Rattle.std.specs.Prelude.{◌≡◌, ◌<◌, ◌^◌, true, IfOk, OnOk, if◌then◌else◌};
ghost use Rattle.gov_ids.specs.Orders.{credential_cmp};
ghost use Rattle.maps.specs.Maps.{has_key};
ghost use Rattle.payments.specs.Amounts.{accounts_credited, all_amounts, claimed_of, unclaimed_of};
ghost use Rattle.stake_book.specs.Paid.{with_payment};
ghost use Rattle.stake_book.specs.Stakes.{AreKept, HasRoom, accounts_of};
ghost use Rattle.view_map.specs.View.{frozen_of};

mod paid;

use gov_ids::Credential;
use no_memory::NoMemory;
pub use paid::{goes_to, paid_out};
use stake_book::StakeBook;

/// Pays each registered account its amounts and gives the sum paid, in lovelace.
/// It pays other accounts nothing. (EPOCH of the formal specification)
pub fn pay_registered(
    mut stake: StakeBook,
    payments: &[(Credential, u64)],
) -> Result<(StakeBook, u64), NoMemory>
    requires room { HasRoom (claimed_of (accounts_of stake) payments.now) stake }
    ensures accounts { IfOk result (λ r. accounts_of r.0 ≡ accounts_credited payments.now (accounts_of stake)) }
    ensures paid { IfOk result (λ r. r.1 ≡ claimed_of (accounts_of stake) payments.now) }
    ensures outputs { IfOk result (λ r. r.0.outputs ≡ stake.outputs) }
    ensures frozen { IfOk result (λ r. frozen_of credential_cmp r.0.accounts ≡
        frozen_of credential_cmp stake.accounts) }
    ensures kept { AreKept stake }
{
    // no sum of balances is above the supply
    let _balances = stake.balances();
    let mut paid = 0;
    for (c, amount) in payments {
        paid += paid_to(&mut stake, c, *amount)?;
    }
    Ok((stake, paid))
}

/// Pays as `pay_registered` does, but gives what was not paid, in lovelace: the treasury keeps it.
/// (EPOCH and POOLREAP of the formal specification)
pub fn pay_all(
    stake: StakeBook,
    payments: &[(Credential, u64)],
) -> Result<(StakeBook, u64), NoMemory>
    requires room { HasRoom (all_amounts payments.now) stake }
    ensures accounts { IfOk result (λ r. accounts_of r.0 ≡ accounts_credited payments.now (accounts_of stake)) }
    ensures unpaid { IfOk result (λ r. r.1 ≡ unclaimed_of (accounts_of stake) payments.now) }
    ensures outputs { IfOk result (λ r. r.0.outputs ≡ stake.outputs) }
    ensures frozen { IfOk result (λ r. frozen_of credential_cmp r.0.accounts ≡
        frozen_of credential_cmp stake.accounts) }
    ensures kept { AreKept stake }
{
    let all = all_amounts(payments);
    let (stake, paid) = pay_registered(stake, payments)?;
    Ok((stake, all - paid))
}

// Pays an amount to an account and gives what was paid: 0 if the account is not registered.
fn paid_to(stake: &mut StakeBook, c: &Credential, amount: u64) -> Result<u64, NoMemory>
    requires room { has_key credential_cmp (accounts_of stake.old) c.now ≡ true → HasRoom amount stake.old }
    ensures paid { IfOk result (λ n. n ≡ (if has_key credential_cmp (accounts_of stake.old) c.now then amount else 0)) }
    ensures registered { OnOk result (accounts_of stake.new ≡ with_payment c.now amount (accounts_of stake.old)) }
    ensures outputs { stake.new.outputs ≡ stake.old.outputs }
    ensures frozen { frozen_of credential_cmp stake.new.accounts ≡ frozen_of credential_cmp stake.old.accounts }
    ensures kept { AreKept stake.old }
{
    Ok(if stake.pay(c, amount)? { amount } else { 0 })
}

// The sum of all amounts.
fn all_amounts(payments: &[(Credential, u64)]) -> u64
    requires fits { all_amounts payments.now < 2 ^ 64 }
    ensures { result ≡ all_amounts payments.now }
{
    let mut sum = 0;
    for (_, amount) in payments {
        sum += *amount;
    }
    sum
}
