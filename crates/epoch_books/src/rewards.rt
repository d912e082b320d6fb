ghost use Rattle.std.specs.Prelude.{◌≡◌, ◌+◌, ◌<◌, ◌^◌, Some, IfOk};
ghost use Rattle.epoch_books.specs.Rewarded.{AreRewarded};
ghost use Rattle.ledger_books.specs.Parts.{HoldsSupply, IsStep, frozen_entries, ledger_of_books};
ghost use Rattle.ledger_model.specs.Moves.{IsMovedBy};
ghost use Rattle.ledger_model.specs.Supply.{pots_of};
ghost use Rattle.payments.specs.Amounts.{all_amounts};
ghost use Rattle.run_model.specs.Boundary.{after_rewards};
ghost use Rattle.run_model.specs.BoundaryFlows.{flows_of_update};
ghost use Rattle.run_model.specs.Laws.{IsCoveredUpdate};
ghost use Rattle.stake_book.specs.Stakes.{AreKept, HasRoom};
ghost use Rattle.tx_records.specs.declared.record.Rewards.{Rewards};

use coin_frac::NoMemory;
use gov_actions::EnactState;
use ledger_books::{Books, with_treasury};
use listed::Boxed;
use payments::paid_out;
use stake_book::StakeBook;
use std::alloc::Global;
use tx_records::Rewards;

/// Applies the pending reward update. (Reward update in NEWEPOCH of the formal specification)
/// It takes from the reserves and the fee pot, gives to the treasury, and pays the rewards.
/// Rewards of accounts that are not registered go to the treasury.
pub fn update_applied(alloc: Global, mut b: Books) -> Result<Books, NoMemory>
    requires holds { HoldsSupply b }
    requires covered { (u : Rewards) → b.pending ≡ Some u → IsCoveredUpdate (ledger_of_books b) u }
    ensures world { IfOk result (λ r. IsStep after_rewards b r) }
    ensures frozen { IfOk result (λ r. frozen_entries r ≡ frozen_entries b) }
    ensures holds { IfOk result (λ r. HoldsSupply r) }
    ensures moved { IfOk result (λ r. IsMovedBy (flows_of_update (ledger_of_books b) b.pending)
        (pots_of (ledger_of_books b)) (pots_of (ledger_of_books r))) }
{
    let Some(u) = b.pending.take() else {
        return Ok(b);
    };
    match rewarded(alloc, b.stake, b.state, &u) {
        Ok((stake, state)) => Ok(Books {
            stake,
            state,
            reserves: b.reserves - u.from_reserves,
            fees: b.fees - u.from_fees,
            ..b
        }),
        Err(error) => {
            // dropped in one call: a `?` would prove it part by part
            drop((b.pools, b.dreps, b.hot, b.proposals, b.snapshots, b.pending));
            Err(error)
        }
    }
}

// The accounts and the state after the treasury gets its part and the rewards are paid.
fn rewarded(
    alloc: Global,
    stake: StakeBook,
    state: Boxed<EnactState>,
    u: &Rewards,
) -> Result<(StakeBook, Boxed<EnactState>), NoMemory>
    requires room { HasRoom (all_amounts u.now.rewards) stake }
    requires fits { state.treasury + u.now.to_treasury + all_amounts u.now.rewards < 2 ^ 64 }
    ensures paid { IfOk result (λ r. AreRewarded u.now stake state r.0 r.1) }
    ensures kept { AreKept stake }
{
    let treasury = state.get().treasury + u.to_treasury;
    let state = with_treasury(alloc, state, treasury)?;
    paid_out(alloc, stake, state, u.rewards.as_slice())
}
