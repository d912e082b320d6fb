ghost use Rattle.report.specs.Taking.{HasPut};
ghost use Rattle.shortfall_model.specs.ShortLines.{shortfall_lines};

use crate::closing::close;
use byte_lines::SinkFault;
use ledger_state::LedgerState;
use report::LineTaker;
use short_lines::put_shortfalls;
use std::alloc::Global;

/// Hands over the lines of what each frozen proposal of a state lacks, in order of priority. (Own)
/// Each replaces what the buffer held. It consumes the state.
/// After an error a prefix of the lines was taken.
pub fn put_shortfall<T: LineTaker>(
    alloc: Global,
    to: &mut T,
    text: &mut Vec<u8>,
    line: u64,
    s: LedgerState,
) -> Result<(), SinkFault>
    ensures { HasPut T.with_line T.IsPart line (T.taken to.old) (shortfall_lines s.frozen) (T.taken to.new)
        (T.faults to.old) (T.faults to.new) result }
{
    let (frozen, counted) = close(s);
    put_shortfalls(alloc, to, text, line, &frozen, &counted)
}
