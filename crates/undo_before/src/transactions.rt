ghost use Rattle.std.specs.Prelude.{◌≡◌, true, None, IfOk};
ghost use Rattle.draft_changes.specs.Changed.{laid_over};
ghost use Rattle.gov_ids.specs.Orders.{credential_cmp};
ghost use Rattle.ledger_model.specs.Broken.{first_broken};
ghost use Rattle.ledger_model.specs.Draft.{last_draft};
ghost use Rattle.ledger_model.specs.Transaction.{after_failed, after_passed, ledger_after_tx};
ghost use Rattle.run_model.specs.World.{on_ledger};
ghost use Rattle.stake_book.specs.Stakes.{accounts_of};
ghost use Rattle.tx_records.specs.TxLimits.{is_within_limits};
ghost use Rattle.tx_rule.specs.Judged.{IsJudged};
ghost use Rattle.undo_before.specs.Held.{HoldsEntries};
ghost use Rattle.undo_before.specs.Names.{account_names, drep_names};
ghost use Rattle.undo_before.specs.Old.{old_at};
ghost use Rattle.undo_model.specs.Holds.{Holds};

use crate::names::{account_names, drep_names};
use crate::old::{old_accounts, old_dreps, old_hot, old_pools, old_values, outputs_only};
use crate::outputs::{outputs_of_failed, outputs_of_passed};
use crate::votes::votes_of_passed;
use book_records::{DrepState, Registered};
use draft_changes::{ChangedNames, Changes};
use drep_book::DrepBook;
use gov_ids::Credential;
use listed::Listed;
use no_memory::NoMemory;
use stake_book::StakeBook;
use std::alloc::Global;
use tx_records::{Scripts, Tx};
use tx_rule::of_ledger_state::LedgerState;
use undo_records::{Before, OldEntries};

/// The old values of all that a transaction changes, of which `judged` gave these changes.
/// `NoMemory`: memory ran out. (Own)
pub fn before_judged(
    alloc: Global,
    s: &LedgerState,
    changes: &Changes,
    tx: &Tx,
) -> Result<Before, NoMemory>
    requires within { is_within_limits tx.now ≡ true }
    requires judged { IsJudged (Ok changes.now) s.now.ledger tx.now }
    ensures { IfOk result (λ b. Holds s.now b (on_ledger (λ l. ledger_after_tx l tx.now) s.now)) }
{
    let entries = old_entries(alloc, s, changes, tx)?;
    Ok(Before::of_parts(old_values(s, Some(tx.id)), entries))
}

/// The old values at all names whose values such a transaction changes.
fn old_entries(
    alloc: Global,
    s: &LedgerState,
    changes: &Changes,
    tx: &Tx,
) -> Result<OldEntries, NoMemory>
    requires within { is_within_limits tx.now ≡ true }
    requires judged { IsJudged (Ok changes.now) s.now.ledger tx.now }
    ensures { IfOk result (λ olds. HoldsEntries s.now.ledger olds (ledger_after_tx s.now.ledger tx.now)) }
{
    match tx.scripts {
        Scripts::Failed => entries_of_failed(alloc, s, tx),
        Scripts::Absent | Scripts::Passed => entries_of_passed(alloc, s, changes, tx),
    }
}

/// The outputs alone: a transaction whose scripts failed spends its collateral.
fn entries_of_failed(alloc: Global, s: &LedgerState, tx: &Tx) -> Result<OldEntries, NoMemory>
    requires within { is_within_limits tx.now ≡ true }
    requires allowed { first_broken s.now.ledger tx.now ≡ None }
    ensures { IfOk result (λ olds. HoldsEntries s.now.ledger olds (after_failed s.now.ledger tx.now)) }
{
    // its ids are used, each key occurs once
    let _live = s.live();
    let outputs = outputs_of_failed(alloc, s.stake().outputs(), tx)?;
    Ok(outputs_only(alloc, outputs))
}

/// The outputs, and all that the changes name, with what follows from DReps that left.
fn entries_of_passed(
    alloc: Global,
    s: &LedgerState,
    changes: &Changes,
    tx: &Tx,
) -> Result<OldEntries, NoMemory>
    requires within { is_within_limits tx.now ≡ true }
    requires allowed { first_broken s.now.ledger tx.now ≡ None }
    requires drafted { laid_over changes.now s.now.ledger ≡ last_draft s.now.ledger tx.now }
    ensures { IfOk result (λ olds. HoldsEntries s.now.ledger olds (after_passed s.now.ledger tx.now)) }
{
    // its ids are used, each key and each proposal occurs once
    let _live = s.live();
    let names = changes.names(alloc)?;
    let stake = s.stake();
    let outputs = outputs_of_passed(alloc, stake.outputs(), tx)?;
    let accounts = accounts_of_passed(alloc, stake, &names)?;
    let pools = old_pools(alloc, s.pools(), names.pools.as_slice())?;
    let dreps = dreps_of_passed(alloc, s.dreps(), &names)?;
    let hot = old_hot(alloc, s.hot(), names.hot.as_slice())?;
    let votes = votes_of_passed(alloc, s.proposals(), tx, names.left.as_slice())?;
    Ok(OldEntries {
        outputs,
        accounts,
        pools,
        dreps,
        hot,
        votes,
    })
}

/// The accounts that changes touch.
fn accounts_of_passed(
    alloc: Global,
    book: &StakeBook,
    names: &ChangedNames,
) -> Result<Listed<(Credential, Option<Registered>)>, NoMemory>
    ensures { IfOk result (λ olds. olds ≡
        old_at credential_cmp (accounts_of book.now) (account_names names.now (accounts_of book.now))) }
{
    let all = account_names(alloc, book.book(), names)?;
    old_accounts(alloc, book, all.as_slice())
}

/// The DReps that changes touch.
fn dreps_of_passed(
    alloc: Global,
    book: &DrepBook,
    names: &ChangedNames,
) -> Result<Listed<(Credential, Option<DrepState>)>, NoMemory>
    ensures { IfOk result (λ olds. olds ≡
        old_at credential_cmp book.now.dreps (drep_names names.now book.now.dreps)) }
{
    let all = drep_names(alloc, book, names)?;
    old_dreps(alloc, book, all.as_slice())
}
