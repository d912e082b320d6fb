//! The checkpoint, whole.
ghost use Rattle.std.specs.Prelude.{◌≡◌, ◌∷◌, ◌++◌, IfOk, map};
ghost use Rattle.bare_lines.specs.Bare.{bare, bare_part};
ghost use Rattle.checkpoint_model.specs.Checkpoint.{checkpoint_lines, checkpoint_words, used_words};
ghost use Rattle.drep_pulser.specs.Pulsers.{done_by};
ghost use Rattle.report.specs.Taking.{HasPut};
ghost use Rattle.text_forms.specs.Lines.{joined_lines};
ghost use Rattle.text_forms.specs.Snapshots.{action_words};
ghost use Rattle.text_model.specs.StateLines.{state_lines};

use crate::frozen::put_frozen;
use crate::kept::KeptLines;
use crate::line::CheckpointLine;
use crate::live::put_live;
use bare_lines::{Bare, put_bare};
use byte_lines::SinkFault;
use drep_pulser::Pulser;
use no_memory::NoMemory;
use report::{LineTaker, put_one};
use state_view::of_ledger_state::LedgerState;
use state_view::put_state;
use std::alloc::Global;

/// How many frozen entries are counted.
fn counted_by(pulser: &Pulser) -> u64
    ensures { result ≡ done_by pulser.now }
{
    match pulser {
        Pulser::Counting(counting) => counting.done(),
        Pulser::Counted(counted) => counted.total(),
    }
}

/// Hands over the first line and the lines of the state.
fn put_head<T: LineTaker>(
    to: &mut T,
    text: &mut Vec<u8>,
    s: &LedgerState,
    line: u64,
) -> Result<(), SinkFault>
    ensures { HasPut T.with_line T.IsPart 0 (T.taken to.old) (checkpoint_words s.now line ∷ state_lines s.now)
        (T.taken to.new) (T.faults to.old) (T.faults to.new) result }
{
    let counted = counted_by(s.pulser());
    let first = CheckpointLine::First(line, s.network(), s.epoch_length(), counted);
    put_one(to, text, 0, &first)?;
    put_state(to, text, 0, s)
}

/// Hands over all but what is frozen, and the end.
fn put_now<T: LineTaker>(
    to: &mut T,
    text: &mut Vec<u8>,
    s: &LedgerState,
    line: u64,
) -> Result<(), SinkFault>
    ensures { HasPut T.with_line T.IsPart 0 (T.taken to.old)
        ((checkpoint_words s.now line ∷ state_lines s.now)
        ++ map used_words s.now.ledger.used ++ map action_words s.now.ledger.proposals)
        (T.taken to.new) (T.faults to.old) (T.faults to.new) result }
{
    put_head(to, text, s, line)?;
    put_live(to, text, s)
}

/// Hands over all but what is frozen, and the end, without numbers.
fn put_bare_now<T: LineTaker>(
    to: &mut T,
    text: &mut Vec<u8>,
    s: &LedgerState,
    line: u64,
) -> Result<(), SinkFault>
    ensures { HasPut (bare T.with_line) (bare_part T.IsPart) 0 (T.taken to.old)
        ((checkpoint_words s.now line ∷ state_lines s.now)
        ++ map used_words s.now.ledger.used ++ map action_words s.now.ledger.proposals)
        (T.taken to.new) (T.faults to.old) (T.faults to.new) result }
{
    let mut bare = Bare { to };
    put_now(&mut bare, text, s, line)
}

/// Hands over the checkpoint of a ledger after so many lines, without numbers. (Own)
/// Each line replaces what the buffer held. After an error a prefix of the lines was taken.
pub fn put_checkpoint<T: LineTaker>(
    to: &mut T,
    text: &mut Vec<u8>,
    s: &LedgerState,
    line: u64,
) -> Result<(), SinkFault>
    ensures { HasPut (bare T.with_line) (bare_part T.IsPart) 0 (T.taken to.old) (checkpoint_lines s.now line)
        (T.taken to.new) (T.faults to.old) (T.faults to.new) result }
{
    put_bare_now(to, text, s, line)?;
    put_frozen(to, text, s)?;
    put_bare(to, text, &[CheckpointLine::End])
}

/// The lines of the checkpoint of a ledger after so many lines, in memory, each without its line
/// feed. (Own)
pub fn write(alloc: Global, s: &LedgerState, line: u64) -> Result<Vec<Vec<u8>>, NoMemory>
    ensures { IfOk result (λ lines. map (λ l. l.items) lines.items ≡ joined_lines (checkpoint_lines s.now line)) }
{
    let mut kept = KeptLines::new(alloc);
    let mut text = Vec::new(alloc);
    match put_checkpoint(&mut kept, &mut text, s, line) {
        Ok(()) => Ok(kept.into_lines()),
        Err(_) => Err(NoMemory),
    }
}
