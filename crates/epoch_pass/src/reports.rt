ghost use Rattle.std.specs.Prelude.{◌≡◌, map, IfOk};
ghost use Rattle.epoch_pass.specs.Removals.{paid_by, removed_by, why_by};
ghost use Rattle.stake_book.specs.Stakes.{accounts_of};

use gov_ids::{Account, ActionId};
use maps::set_of;
use no_memory::NoMemory;
use payments::goes_to;
use proposal_store::LiveProposal;
use stake_book::StakeBook;
use std::alloc::Global;
use std::collections::BTreeSet;
use tx_records::{Paid, Removed, Why};

// Each target, paid or kept.
pub(crate) fn paid_of(
    alloc: Global,
    stake: &StakeBook,
    targets: &[(Account, u64)],
) -> Result<Vec<Paid>, NoMemory>
    ensures { IfOk result (λ l. l.items ≡ map (paid_by (accounts_of stake.now)) targets.now) }
{
    Ok(
        targets
            .iter()
            .map(|(account, amount)| paid(stake, account, *amount))
            .collect(alloc)?,
    )
}

// A target, paid or kept.
fn paid(stake: &StakeBook, account: &Account, amount: u64) -> Paid
    ensures { result ≡ paid_by (accounts_of stake.now) (account.now, amount) }
{
    Paid {
        account: *account,
        amount,
        kept: stake.account(&account.cred).is_none(),
    }
}

// Each removed proposal.
pub(crate) fn removed_of(
    alloc: Global,
    stake: &StakeBook,
    proposals: &[LiveProposal],
    enacted: &[ActionId],
    expired: &[ActionId],
) -> Result<Vec<Removed>, NoMemory>
    ensures { IfOk result (λ l. l.items ≡
        map (removed_by (accounts_of stake.now) enacted.now expired.now) proposals.now) }
{
    let enacted = set_of(alloc, enacted)?;
    let expired = set_of(alloc, expired)?;
    removed_beside(alloc, stake, proposals, &enacted, &expired)
}

// Each removed proposal, by the sets of the ids.
fn removed_beside(
    alloc: Global,
    stake: &StakeBook,
    proposals: &[LiveProposal],
    enacted: &BTreeSet<ActionId>,
    expired: &BTreeSet<ActionId>,
) -> Result<Vec<Removed>, NoMemory>
    ensures { IfOk result (λ l. l.items ≡
        map (removed_by (accounts_of stake.now) enacted.now.keys expired.now.keys) proposals.now) }
{
    Ok(
        proposals
            .iter()
            .map(|p| removed(stake, p, enacted, expired))
            .collect(alloc)?,
    )
}

// A removed proposal.
fn removed(
    stake: &StakeBook,
    p: &LiveProposal,
    enacted: &BTreeSet<ActionId>,
    expired: &BTreeSet<ActionId>,
) -> Removed
    ensures { result ≡ removed_by (accounts_of stake.now) enacted.now.keys expired.now.keys p.now }
{
    Removed {
        id: p.id(),
        why: why(p, enacted, expired),
        amount: p.deposit(),
        to: goes_to(stake, p.account()),
    }
}

// Why a proposal is removed.
fn why(p: &LiveProposal, enacted: &BTreeSet<ActionId>, expired: &BTreeSet<ActionId>) -> Why
    ensures { result ≡ why_by enacted.now.keys expired.now.keys p.now }
{
    if enacted.contains(&p.id()) {
        Why::Enacted
    } else if expired.contains(&p.id()) {
        Why::Expired
    } else {
        Why::Dropped
    }
}
