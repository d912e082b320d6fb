//! What is reported of a proposal.
ghost use Rattle.std.specs.Prelude.{flat_map, option_to_list, slice_get};
ghost use Rattle.report.specs.Taking.{HasPut};
ghost use Rattle.voting_lines.specs.Told.{lines_by, tally_lines, told_lines, voting_lines};

use crate::asked::tally_of;
use byte_lines::SinkFault;
use gov_ids::ActionId;
use held_ledger::of_epoch_rule::next_outcome;
use held_ledger::of_ledger_state::LedgerState;
use proposal_store::{LiveProposal, ProposalStore};
use ratify::Outcome;
use report::{LineTaker, put_one};
use state_print::put_proposal;
use std::alloc::Global;

/// Hands over the line of the tally of a proposal, where it was frozen.
fn put_tally<T: LineTaker>(
    to: &mut T,
    text: &mut Vec<u8>,
    line: u64,
    ahead: &Outcome,
    id: &ActionId,
) -> Result<(), SinkFault>
    ensures { HasPut T.with_line T.IsPart line (T.taken to.old) (tally_lines ahead.now.tallies id.now) (T.taken to.new)
        (T.faults to.old) (T.faults to.new) result }
{
    match tally_of(ahead, id) {
        Some(tally) => put_one(to, text, line, &tally),
        None => Ok(()),
    }
}

/// Hands over the lines of a live proposal: what it asks for, its votes, and, if it was frozen when
/// the epoch began, what each role counts and needs, and what becomes of it.
fn put_told<T: LineTaker>(
    to: &mut T,
    text: &mut Vec<u8>,
    line: u64,
    ahead: &Outcome,
    proposal: &LiveProposal,
) -> Result<(), SinkFault>
    ensures { HasPut T.with_line T.IsPart line (T.taken to.old) (told_lines ahead.now.tallies proposal.now) (T.taken to.new)
        (T.faults to.old) (T.faults to.new) result }
{
    put_proposal(to, text, line, proposal)?;
    put_tally(to, text, line, ahead, &proposal.id())
}

/// Hands over the lines of the proposal at an index, where there is one.
fn put_at<T: LineTaker>(
    to: &mut T,
    text: &mut Vec<u8>,
    line: u64,
    ahead: &Outcome,
    proposals: &ProposalStore,
    i: u64,
) -> Result<(), SinkFault>
    ensures { HasPut T.with_line T.IsPart line (T.taken to.old)
        (flat_map (told_lines ahead.now.tallies) (option_to_list (slice_get proposals.now i)))
        (T.taken to.new) (T.faults to.old) (T.faults to.new) result }
{
    match proposals.at(i) {
        None => Ok(()),
        Some(proposal) => put_told(to, text, line, ahead, proposal),
    }
}

/// Hands over the lines of live proposals, in order of submission.
fn put_all<T: LineTaker>(
    to: &mut T,
    text: &mut Vec<u8>,
    line: u64,
    ahead: &Outcome,
    proposals: &ProposalStore,
) -> Result<(), SinkFault>
    ensures { HasPut T.with_line T.IsPart line (T.taken to.old) (lines_by ahead.now.tallies proposals.now)
        (T.taken to.new) (T.faults to.old) (T.faults to.new) result }
{
    for i in 0..proposals.len() {
        put_at(to, text, line, ahead, proposals, i)?;
    }
    Ok(())
}

/// Hands over the lines of the live proposals of a ledger, in order of submission. It counts the
/// frozen snapshot on a copy. (Own)
pub fn put_ledger<T: LineTaker>(
    alloc: Global,
    to: &mut T,
    text: &mut Vec<u8>,
    line: u64,
    ledger: &LedgerState,
) -> Result<(), SinkFault>
    ensures { HasPut T.with_line T.IsPart line (T.taken to.old) (voting_lines ledger.now)
        (T.taken to.new) (T.faults to.old) (T.faults to.new) result }
{
    let ahead = next_outcome(alloc, ledger)?;
    put_all(to, text, line, &ahead, ledger.proposals())
}
