//! The books.
ghost use Rattle.std.specs.Prelude.{◌≡◌, ◌<◌, ◌^◌, ◌==◌, IfOk, map, ⊤};
ghost use Rattle.book_records.specs.Outputs.{lovelace_in};
ghost use Rattle.checkpoint_lists.specs.Shown.{output_row, pool_row};
ghost use Rattle.text_forms.specs.of_ledger_model.Ledger.{Ledger};
ghost use Rattle.account_rows.specs.Shown.{entries_shown};
ghost use Rattle.proposal_rows.specs.Rows.{all_rows};
ghost use Rattle.resume_checks.specs.Sums.{deposits_in};
ghost use Rattle.shown_lists.specs.Only.{IsOnly};
ghost use Rattle.told_lists.specs.Parts.{AreAccounts, AreBooks, AreHeld, AreOutputs, AreProposed, books_shown, held_shown};
ghost use Rattle.told_lists.specs.Told.{have_votes_in_order};

use book_records::{Entry, Output, Pool, PoolTerms, Registered};
use book_rows::{OutputRows, PoolRows};
use checkpoint_lists::Books;
use gov_actions::{HotState, Proposal};
use gov_ids::{Address, AssetId, Credential, OutRef, PoolId, TxId};
use listed::Listed;
use no_memory::NoMemory;
use proposal_rows::{ActionRow, VotedRow};
use resume_checks::{have_own_ids, holds_deposits, holds_lovelace, holds_rewards, is_map};
use row_items::items_of;
use state_lists::BookLists;
use std::alloc::Global;
use tx_records::Pots;

/// What lines say of an output, and the assets behind it.
type OutputRow = ((OutRef, (Address, u64)), Listed<(AssetId, u64)>);

/// What the line of a pool says, and the future terms behind it.
type PoolRow = ((PoolId, Pool), Listed<(PoolId, PoolTerms)>);

/// Outputs and accounts.
type Held = (Listed<(OutRef, Output)>, Listed<(Credential, Registered)>);

/// The actions of proposals, the used ids, and what cold keys authorized.
pub(crate) type OtherRows = (
    Listed<ActionRow>,
    Listed<TxId>,
    Listed<(Credential, HotState)>,
);

/// The outputs that these rows show, if there are such that hold this lovelace. `NoMemory` may come
/// at any time.
fn outputs_of(
    alloc: Global,
    rows: Listed<OutputRow>,
    lovelace: u64,
) -> Result<Option<Listed<(OutRef, Output)>>, NoMemory>
    ensures { IfOk result (IsOnly (AreOutputs lovelace) (map output_row) rows) }
{
    let Some(outputs) = items_of::<OutputRows>(alloc, rows.as_slice())? else {
        return Ok(None);
    };
    if !holds_lovelace(outputs.as_slice(), lovelace) {
        return Ok(None);
    }
    Ok(Some(Listed::from_vec(outputs)))
}

/// The accounts that these entries show beside these outputs, if there are such with these rewards
/// in lovelace. `NoMemory` may come at any time.
fn accounts_of(
    alloc: Global,
    outputs: &Listed<(OutRef, Output)>,
    entries: Listed<(Credential, Entry)>,
    rewards: u64,
) -> Result<Option<Listed<(Credential, Registered)>>, NoMemory>
    requires { lovelace_in outputs.now < 2 ^ 64 }
    ensures { (l : Ledger) → IfOk result (IsOnly (AreAccounts rewards) (entries_shown l outputs.now) entries) }
{
    let Some(accounts) = account_rows::accounts_of(alloc, outputs.as_slice(), entries.as_slice())?
    else {
        return Ok(None);
    };
    if !holds_rewards(accounts.as_slice(), rewards) {
        return Ok(None);
    }
    Ok(Some(Listed::from_vec(accounts)))
}

/// The outputs and the accounts that these rows show, if there are such that hold what the pots
/// say. `NoMemory` may come at any time.
fn held_of(
    alloc: Global,
    outputs: Listed<OutputRow>,
    entries: Listed<(Credential, Entry)>,
    pots: &Pots,
) -> Result<Option<Held>, NoMemory>
    ensures { (l : Ledger) → IfOk result (IsOnly (AreHeld pots.now) (held_shown l) (outputs, entries)) }
{
    let Some(outputs) = outputs_of(alloc, outputs, pots.outputs)? else {
        return Ok(None);
    };
    let Some(accounts) = accounts_of(alloc, &outputs, entries, pots.rewards)? else {
        return Ok(None);
    };
    Ok(Some((outputs, accounts)))
}

/// The pools that these rows show, if there are such. `NoMemory` may come at any time.
fn pools_of(
    alloc: Global,
    rows: Listed<PoolRow>,
) -> Result<Option<Listed<(PoolId, Pool)>>, NoMemory>
    ensures { IfOk result (IsOnly (λ ps. ⊤) (map pool_row) rows) }
{
    match items_of::<PoolRows>(alloc, rows.as_slice())? {
        Some(pools) => Ok(Some(Listed::from_vec(pools))),
        None => Ok(None),
    }
}

/// Whether the votes on each proposal are in order, each voter once.
pub(crate) fn have_votes_in_order(proposals: &[Proposal]) -> bool
    ensures { result ≡ have_votes_in_order proposals.now }
{
    for proposal in proposals {
        if !is_map(proposal.votes.as_slice()) {
            return false;
        }
    }
    true
}

/// The proposals that these rows show with these actions, if there are such, each with its own id
/// and with votes in order. `NoMemory` may come at any time.
fn proposals_of(
    alloc: Global,
    rows: Listed<VotedRow>,
    actions: Listed<ActionRow>,
) -> Result<Option<Listed<Proposal>>, NoMemory>
    ensures { IfOk result (IsOnly AreProposed all_rows (rows, actions)) }
{
    let Some(proposals) = proposal_rows::proposals_of(alloc, rows.as_slice(), actions.as_slice())?
    else {
        return Ok(None);
    };
    if !have_own_ids(alloc, proposals.as_slice())? {
        return Ok(None);
    }
    if !have_votes_in_order(proposals.as_slice()) {
        return Ok(None);
    }
    Ok(Some(Listed::from_vec(proposals)))
}

/// Whether the deposits of these books are just this lovelace.
fn are_deposits(books: &BookLists, deposits: u64) -> bool
    ensures { (l : Ledger) → result ≡ (deposits_in books.now.accounts books.now.pools books.now.dreps books.now.proposals == deposits) }
{
    holds_deposits(
        books.accounts.as_slice(),
        books.pools.as_slice(),
        books.dreps.as_slice(),
        books.proposals.as_slice(),
        deposits,
    )
}

/// The books that these rows show, if there are such that hold what the pots say. `NoMemory` may
/// come at any time.
pub(crate) fn books_of(
    alloc: Global,
    rows: Books,
    others: OtherRows,
    pots: &Pots,
) -> Result<Option<BookLists>, NoMemory>
    ensures { (l : Ledger) → IfOk result (IsOnly (AreBooks pots.now) (books_shown l) (rows, others.0, others.1, others.2)) }
{
    let Books {
        dreps,
        pools,
        entries,
        outputs,
        proposals,
    } = rows;
    let (actions, used, hot) = others;
    let Some((outputs, accounts)) = held_of(alloc, outputs, entries, pots)? else {
        return Ok(None);
    };
    let Some(pools) = pools_of(alloc, pools)? else {
        return Ok(None);
    };
    let Some(proposals) = proposals_of(alloc, proposals, actions)? else {
        return Ok(None);
    };
    let books = BookLists {
        outputs,
        used,
        accounts,
        pools,
        dreps,
        hot,
        proposals,
    };
    if !are_deposits(&books, pots.deposits) {
        return Ok(None);
    }
    Ok(Some(books))
}
