ghost use Rattle.std.specs.Prelude.{◌≡◌, ◌<◌, ◌^◌, true};
ghost use Rattle.outlook_model.specs.Outlook.{boundary_lines, can_end, outlook_lines, tallied_lines};
ghost use Rattle.report.specs.Taking.{HasPut};

use byte_lines::SinkFault;
use epoch_rule::cross_alone;
use epoch_rule::of_ledger_state::LedgerState;
use report::{LineTaker, put_each, put_one};
use std::alloc::Global;
use tx_records::EpochReport;
use tx_records::limits::SLOT_LIMIT;

// Whether the epoch can end.
fn can_end(s: &LedgerState) -> bool
    ensures { result ≡ can_end s.now }
{
    s.epoch() < SLOT_LIMIT
}

// Hands over the epoch that begins, and each tally.
fn put_tallied<T: LineTaker>(
    to: &mut T,
    text: &mut Vec<u8>,
    line: u64,
    report: &EpochReport,
) -> Result<(), SinkFault>
    ensures { HasPut T.with_line T.IsPart line (T.taken to.old) (tallied_lines report.now) (T.taken to.new)
        (T.faults to.old) (T.faults to.new) result }
{
    put_one(to, text, line, report)?;
    put_each(to, text, line, report.tallies.as_slice())
}

// Hands over the lines of one boundary.
fn put_boundary<T: LineTaker>(
    alloc: Global,
    to: &mut T,
    text: &mut Vec<u8>,
    line: u64,
    s: LedgerState,
) -> Result<(), SinkFault>
    ensures { HasPut T.with_line T.IsPart line (T.taken to.old) (boundary_lines s) (T.taken to.new)
        (T.faults to.old) (T.faults to.new) result }
{
    if !can_end(&s) {
        return Ok(());
    }
    let (_after, report) = cross_alone(alloc, s)?;
    put_tallied(to, text, line, &report)
}

/// Hands over the tallies of the next two boundaries as if no further record came: today's votes
/// are counted at the second. It consumes the ledger. After an error a prefix of the lines was
/// taken. (Own)
pub fn put_outlook<T: LineTaker>(
    alloc: Global,
    to: &mut T,
    text: &mut Vec<u8>,
    line: u64,
    s: LedgerState,
) -> Result<(), SinkFault>
    ensures { HasPut T.with_line T.IsPart line (T.taken to.old) (outlook_lines s) (T.taken to.new)
        (T.faults to.old) (T.faults to.new) result }
{
    if !can_end(&s) {
        return Ok(());
    }
    let (after, report) = cross_alone(alloc, s)?;
    put_tallied(to, text, line, &report)?;
    put_boundary(alloc, to, text, line, after)
}
