//! The accounts of the stream, and what their registrations cost.
ghost use Rattle.std.specs.Prelude.{◌≡◌, ◌+◌, ◌*◌, ◌<◌, ◌≤◌};
ghost use Rattle.load_model.specs.Amounts.{account_count, account_in_epoch, account_name, drep_in_epoch, first_account, first_pulse, registration_count, registration_name, spent_by_registration, weight};

/// The fee of a transaction, in lovelace.
pub(crate) const FEE: u64 = 1;
/// The deposit of an account, in lovelace.
const ACCOUNT_DEPOSIT: u64 = 2;
/// The maximal number of accounts that one transaction registers.
const AT_ONCE: u32 = 500;

/// The number of transactions that register so many accounts.
pub(crate) fn registrations_of(accounts: u32) -> u32
    requires { accounts ≤ 1000000 }
    ensures { result ≡ registration_count accounts }
{
    (accounts + (AT_ONCE - 1)) / AT_ONCE
}

/// The first account of a registration, by the registration's number.
pub(crate) fn first_of(registration: u32) -> u32
    requires { registration ≤ 2000 }
    ensures { result ≡ first_account registration }
{
    AT_ONCE * registration
}

/// The account after the last one of a registration.
pub(crate) fn end_of(accounts: u32, registration: u32) -> u32
    requires accounts { accounts ≤ 1000000 }
    requires registration { registration < registration_count accounts }
    ensures end { result ≡ first_account registration + account_count accounts registration }
    ensures some { first_account registration < result }
    ensures most { result ≤ first_account registration + 500 }
    ensures within { result ≤ accounts }
{
    accounts.min(first_of(registration) + AT_ONCE)
}

/// The number in the name of an account.
pub(crate) fn name_of(account: u32) -> u64
    requires { account ≤ 1000000 }
    ensures { result ≡ account_name account }
{
    1000 + u64::from(account)
}

/// The number in the name of a registration.
pub(crate) fn registration_name_of(registration: u32) -> u64
    requires { registration ≤ 2000 }
    ensures { result ≡ registration_name registration }
{
    2 + u64::from(registration)
}

/// The lovelace in an account's output.
pub(crate) fn weight_of(seed: u64, account: u32) -> u64
    ensures weight { result ≡ weight seed account }
    ensures most { result ≤ 1999 }
{
    let turned = (u128::from(seed) + 37 * u128::from(account)) % 1000;
    1000 + turned as u64
}

/// What a registration takes from the rest: outputs, deposits and the fee, in lovelace.
pub(crate) fn spent_by(seed: u64, accounts: u32, registration: u32) -> u64
    requires accounts { accounts ≤ 1000000 }
    requires registration { registration < registration_count accounts }
    ensures spent { result ≡ spent_by_registration seed accounts registration }
    ensures most { result ≤ 1000501 }
{
    let mut spent = FEE;
    for account in first_of(registration)..end_of(accounts, registration) {
        spent += weight_of(seed, account) + ACCOUNT_DEPOSIT;
    }
    spent
}

/// The number in the name of the account that changes its delegation and gets a reward in an epoch.
pub(crate) fn account_of_epoch(seed: u64, accounts: u32, epoch: u32) -> u64
    requires { 0 < accounts }
    ensures { result ≡ account_in_epoch seed accounts epoch }
{
    let turned = (u128::from(seed) + u128::from(epoch)) % u128::from(accounts);
    1000 + turned as u64
}

/// The number in the name of the DRep that it delegates to.
pub(crate) fn drep_of_epoch(epoch: u32) -> u64
    ensures { result ≡ drep_in_epoch epoch }
{
    if epoch % 2 == 0 { 30 } else { 31 }
}

/// The pulse of the first block of an epoch.
pub(crate) fn pulse_of_epoch(seed: u64, epoch: u32) -> u64
    ensures { result ≡ first_pulse seed epoch }
{
    let turned = (u128::from(seed) + u128::from(epoch)) % 1000;
    1 + turned as u64
}
