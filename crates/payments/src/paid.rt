ghost use Rattle.std.specs.Prelude.{◌≡◌, ◌+◌, ◌<◌, ◌^◌, IfOk};
ghost use Rattle.gov_ids.specs.Orders.{credential_cmp};
ghost use Rattle.payments.specs.Amounts.{accounts_credited, all_amounts, goes_by, unclaimed_of};
ghost use Rattle.stake_book.specs.Stakes.{AreKept, HasRoom, accounts_of};
ghost use Rattle.view_map.specs.View.{frozen_of};

use crate::pay_all;
use gov_actions::EnactState;
use gov_ids::{Account, Credential};
use ledger_books::with_treasury;
use listed::Boxed;
use no_memory::NoMemory;
use stake_book::StakeBook;
use std::alloc::Global;

/// Pays each registered account its amounts, in lovelace; the treasury has those of the others.
/// (EPOCH and POOLREAP of the formal specification)
pub fn paid_out(
    alloc: Global,
    stake: StakeBook,
    state: Boxed<EnactState>,
    payments: &[(Credential, u64)],
) -> Result<(StakeBook, Boxed<EnactState>), NoMemory>
    requires room { HasRoom (all_amounts payments.now) stake }
    requires fits { state.treasury + all_amounts payments.now < 2 ^ 64 }
    ensures accounts { IfOk result (λ r. accounts_of r.0 ≡ accounts_credited payments.now (accounts_of stake)) }
    ensures outputs { IfOk result (λ r. r.0.outputs ≡ stake.outputs) }
    ensures frozen { IfOk result (λ r. frozen_of credential_cmp r.0.accounts ≡
        frozen_of credential_cmp stake.accounts) }
    ensures state { IfOk result (λ r. r.1 ≡
        record state { treasury = state.treasury + unclaimed_of (accounts_of stake) payments.now }) }
    ensures kept { AreKept stake }
{
    let (stake, kept) = pay_all(stake, payments)?;
    let treasury = state.get().treasury + kept;
    Ok((stake, with_treasury(alloc, state, treasury)?))
}

/// The account that a payment goes to; none is the treasury, if the account is not registered.
/// (EPOCH and POOLREAP of the formal specification)
pub fn goes_to(stake: &StakeBook, account: Account) -> Option<Account>
    ensures { result ≡ goes_by (accounts_of stake.now) account }
{
    stake.account(&account.cred).is_some().then_some(account)
}
