ghost use Rattle.std.specs.Prelude.{◌≡◌, ◌+◌, ◌<◌, ◌≤◌, ◌^◌, ◌++◌, false, true, IfOk, OnOk, None, length, map, sum_by};
ghost use Rattle.std.specs.List.{AllByRecursion};
ghost use Rattle.std.specs.Map.{keys_of};
ghost use Rattle.book_records.specs.Outputs.{lovelace_in};
ghost use Rattle.gov_ids.specs.Orders.{outref_cmp};
ghost use Rattle.gov_model.specs.Proposals.{deposits_of};
ghost use Rattle.ledger_model.specs.Broken.{is_allowed};
ghost use Rattle.ledger_model.specs.Draft.{last_draft};
ghost use Rattle.ledger_model.specs.Transaction.{ledger_after_tx, made_outputs, made_proposals, with_votes};
ghost use Rattle.ledger_model.specs.UtxoRules.{is_failed, returned};
ghost use Rattle.draft_changes.specs.of_ledger_books.Parts.{frozen_entries, ledger_of_books};
ghost use Rattle.live_ledger.specs.Books.{IsMade};
ghost use Rattle.live_ledger.specs.Kept.{IsLiveLedger};
ghost use Rattle.draft_changes.specs.Changed.{laid_over};
ghost use Rattle.live_ledger.specs.Drafts.{draft_of};
ghost use Rattle.live_ledger.specs.Proposed.{IsUnknown};
ghost use Rattle.live_ledger.specs.Standing.{on_ledger};
ghost use Rattle.maps.specs.Maps.{IsMap, value_at, without_keys};
ghost use Rattle.stake_book.specs.Stakes.{accounts_of, balances_in};
ghost use Rattle.tx_records.specs.TxLimits.{is_within_limits};
ghost use Rattle.coin_frac.specs.declared.TheConstants.{SUPPLY_LIMIT};
ghost use Rattle.tx_records.specs.declared.tx.ProposalRecord.{ProposalRecord};
ghost use Rattle.tx_records.specs.declared.tx.TxOutput.{TxOutput};

use super::LiveLedger;
use crate::books::{move_collateral, move_outputs};
use crate::proposals::add_tx_proposals;
use coin_frac::NoMemory;
use draft_changes::Changes;
use draft_changes::of_ledger_books::Books;
use proposal_store::ProposalStore;
use stake_book::StakeBook;
use std::alloc::Global;
use tx_records::{Scripts, Tx};

impl LiveLedger {
    /// The ledger after an allowed transaction with these changes; frozen entries remain.
    /// After `NoMemory` there is no ledger. (UTXO and LEDGER of the formal specification)
    pub fn commit(self, changes: Changes, tx: &Tx) -> Result<LiveLedger, NoMemory>
        requires within { is_within_limits tx.now ≡ true }
        requires allowed { is_allowed self.ledger tx.now ≡ true }
        requires drafted { laid_over changes self.ledger ≡ draft_of self.ledger tx.now }
        ensures { IfOk result (λ s. s ≡ on_ledger (λ l. ledger_after_tx l tx.now) self) }
    {
        match tx.scripts {
            Scripts::Absent | Scripts::Passed => self.passed(changes, tx),
            Scripts::Failed => {
                drop(changes);
                self.failed(tx)
            }
        }
    }

    /// The ledger after an allowed transaction whose scripts did not fail.
    fn passed(self, changes: Changes, tx: &Tx) -> Result<LiveLedger, NoMemory>
        requires within { is_within_limits tx.now ≡ true }
        requires allowed { is_allowed self.ledger tx.now ≡ true }
        requires passed { is_failed tx.now.scripts ≡ false }
        requires drafted { laid_over changes self.ledger ≡ last_draft self.ledger tx.now }
        ensures { IfOk result (λ s. s ≡ on_ledger (λ l. ledger_after_tx l tx.now) self) }
    {
        let mut books = self.books;
        match pass(self.alloc, &mut books, changes, tx) {
            Ok(()) => Ok(LiveLedger {
                alloc: self.alloc,
                books,
            }),
            Err(error) => {
                drop(books);
                Err(error)
            }
        }
    }

    /// The ledger after an allowed transaction whose scripts failed.
    fn failed(self, tx: &Tx) -> Result<LiveLedger, NoMemory>
        requires within { is_within_limits tx.now ≡ true }
        requires allowed { is_allowed self.ledger tx.now ≡ true }
        requires failed { is_failed tx.now.scripts ≡ true }
        ensures { IfOk result (λ s. s ≡ on_ledger (λ l. ledger_after_tx l tx.now) self) }
    {
        let mut books = self.books;
        match fail(self.alloc, &mut books, tx) {
            Ok(()) => Ok(LiveLedger {
                alloc: self.alloc,
                books,
            }),
            Err(error) => {
                drop(books);
                Err(error)
            }
        }
    }
}

/// Applies an allowed transaction whose scripts did not fail: changes, inputs, outputs, votes,
/// then proposals; fee and donation join their pots. After `NoMemory` the caller drops the books.
fn pass(alloc: Global, b: &mut Books, changes: Changes, tx: &Tx) -> Result<(), NoMemory>
    requires kept { IsLiveLedger (ledger_of_books b.old) }
    requires within { is_within_limits tx.now ≡ true }
    requires allowed { is_allowed (ledger_of_books b.old) tx.now ≡ true }
    requires passed { is_failed tx.now.scripts ≡ false }
    requires drafted { laid_over changes (ledger_of_books b.old) ≡ last_draft (ledger_of_books b.old) tx.now }
    ensures ledger { OnOk result (ledger_of_books b.new ≡ ledger_after_tx (ledger_of_books b.old) tx.now) }
    ensures kept { OnOk result (IsLiveLedger (ledger_of_books b.new)) }
    ensures frozen { OnOk result (frozen_entries b.new ≡ frozen_entries b.old) }
{
    let last = b.epoch + u64::from(b.state.get().params.gov_action_lifetime);
    changes.lay_over(alloc, b)?;
    apply(alloc, last, &mut b.stake, &mut b.proposals, tx)?;
    b.fees += tx.fee;
    b.donations += tx.donation;
    Ok(())
}

/// Applies an allowed transaction whose scripts failed: its collateral is spent,
/// and the fees grow by what its return leaves. After `NoMemory` the caller drops the books.
fn fail(alloc: Global, b: &mut Books, tx: &Tx) -> Result<(), NoMemory>
    requires kept { IsLiveLedger (ledger_of_books b.old) }
    requires within { is_within_limits tx.now ≡ true }
    requires allowed { is_allowed (ledger_of_books b.old) tx.now ≡ true }
    requires failed { is_failed tx.now.scripts ≡ true }
    ensures ledger { OnOk result (ledger_of_books b.new ≡ ledger_after_tx (ledger_of_books b.old) tx.now) }
    ensures kept { OnOk result (IsLiveLedger (ledger_of_books b.new)) }
    ensures frozen { OnOk result (frozen_entries b.new ≡ frozen_entries b.old) }
{
    let collateral = move_collateral(alloc, &mut b.stake, tx)?;
    b.fees += collateral - returned(tx);
    Ok(())
}

/// Spends inputs, makes outputs, casts votes and adds proposals of an allowed transaction,
/// whose changes are laid over the books before. After `NoMemory` the caller drops both.
fn apply(
    alloc: Global,
    last: u64,
    stake: &mut StakeBook,
    proposals: &mut ProposalStore,
    tx: &Tx,
) -> Result<(), NoMemory>
    requires in_order { IsMap outref_cmp stake.old.outputs.outputs }
    requires few_outputs { length tx.now.outputs ≤ 65535 }
    requires absent { AllByRecursion
        (λ r. value_at outref_cmp (without_keys outref_cmp tx.now.inputs stake.old.outputs.outputs) r ≡ None)
        (keys_of (made_outputs tx.now)) }
    requires room { lovelace_in (without_keys outref_cmp tx.now.inputs stake.old.outputs.outputs)
        + balances_in (accounts_of stake.old) + sum_by (λ (o : TxOutput). o.lovelace) tx.now.outputs ≤ SUPPLY_LIMIT }
    requires few_proposals { length tx.now.proposals ≤ 65536 }
    requires unknown { IsUnknown tx.now.id (map (with_votes tx.now) proposals.old) }
    requires deposits { deposits_of (map (with_votes tx.now) proposals.old)
        + sum_by (λ (p : ProposalRecord). p.deposit) tx.now.proposals < 2 ^ 64 }
    ensures made { OnOk result (IsMade stake.old stake.new tx.now.inputs (made_outputs tx.now) tx.now.id) }
    ensures proposed { OnOk result
        (proposals.new ≡ map (with_votes tx.now) proposals.old ++ made_proposals last tx.now) }
{
    move_outputs(alloc, stake, tx)?;
    add_tx_proposals(alloc, proposals, last, tx)?;
    Ok(())
}

/// What the collateral return of a transaction gives back, in lovelace; 0 if it has none.
fn returned(tx: &Tx) -> u64
    ensures { result ≡ returned tx.now }
{
    match &tx.collateral_return {
        Some(output) => output.lovelace,
        None => 0,
    }
}
