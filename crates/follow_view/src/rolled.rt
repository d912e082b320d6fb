ghost use Rattle.std.specs.Prelude.{◌≡◌, [], ◌∷◌, IfOk};
ghost use Rattle.drep_pulser.specs.Pulsers.{done_by, total_of_pulser};
ghost use Rattle.follow_lines.specs.Words.{words_of_rolled};
ghost use Rattle.follow_model.specs.FollowLines.{rolled_words};
ghost use Rattle.report.specs.Taking.{HasPut};
ghost use Rattle.text_model.specs.Words.{line_of};

use byte_lines::SinkFault;
use drep_pulser::Pulser;
use follow_lines::RolledLine;
use ledger_state::LedgerState;
use no_memory::NoMemory;
use report::{LineTaker, Printed, put_one};
use std::alloc::Global;

/// How many entries are counted, and how many there are.
fn progress_of(pulser: &Pulser) -> (u64, u64)
    ensures counted { result.0 ≡ done_by pulser.now }
    ensures entries { result.1 ≡ total_of_pulser pulser.now }
{
    match pulser {
        Pulser::Counting(counting) => (counting.done(), counting.total()),
        Pulser::Counted(counted) => (counted.total(), counted.total()),
    }
}

/// The line of a ledger, in its numbers.
fn rolled_of(state: &LedgerState) -> RolledLine
    ensures { words_of_rolled result.slot result.epoch result.counted result.entries ≡ rolled_words state.now }
{
    let (counted, entries) = progress_of(state.pulser());
    RolledLine {
        slot: state.slot(),
        epoch: state.epoch(),
        counted,
        entries,
    }
}

/// Hands over the line of an accepted rollback that left this ledger.
pub fn put_rolled<T: LineTaker>(
    to: &mut T,
    text: &mut Vec<u8>,
    line: u64,
    state: &LedgerState,
) -> Result<(), SinkFault>
    ensures { HasPut T.with_line T.IsPart line (T.taken to.old) (rolled_words state.now ∷ []) (T.taken to.new)
        (T.faults to.old) (T.faults to.new) result }
{
    put_one(to, text, line, &rolled_of(state))
}

/// The line of an accepted rollback that left this ledger, with its line feed. (Own)
pub fn rolled_text(alloc: Global, line: u64, state: &LedgerState) -> Result<Vec<u8>, NoMemory>
    ensures { IfOk result (λ text. text.items ≡ line_of line (rolled_words state.now)) }
{
    let mut text = Vec::new(alloc);
    rolled_of(state).push_line(&mut text, line)?;
    Ok(text)
}
