//! The print of a state, whole.
ghost use Rattle.std.specs.Prelude.{◌≡◌, ℕ, ◌++◌, map, take, Err, IfOk, OnErr, OnOk};
ghost use Rattle.std.specs.Io.KnownBytes.{append_known};
ghost use Rattle.byte_lines.specs.Faults.{CountsFaults};
ghost use Rattle.report.specs.Taking.{HasPut};
ghost use Rattle.state_print.specs.Views.{shown_of_view};
ghost use Rattle.text_model.specs.ParamLines.{param_lines};
ghost use Rattle.text_model.specs.Runs.{text_of_lines};
ghost use Rattle.text_model.specs.StateLines.{book_lines, governance_lines, lines_of_shown, pending_lines, snapshot_lines};
ghost use Rattle.text_model.specs.Words.{line_of};

use crate::books::put_books;
use crate::governance::put_governance;
use crate::kept::{put_pending, put_snapshots};
use crate::view::StateView;
use byte_lines::{Sink, SinkFault};
use no_memory::NoMemory;
use report::{LineList, LineTaker, PotsWord, put_one};
use state_lines::put_params;
use std::alloc::Global;

/// Hands over the lines of the governance, the parameters and the books.
fn put_ledger<T: LineTaker>(
    to: &mut T,
    text: &mut Vec<u8>,
    line: u64,
    state: &StateView<'_>,
) -> Result<(), SinkFault>
    ensures { HasPut T.with_line T.IsPart line (T.taken to.old)
        (governance_lines (shown_of_view state.now) ++ param_lines (shown_of_view state.now).state.params
        ++ book_lines (shown_of_view state.now))
        (T.taken to.new) (T.faults to.old) (T.faults to.new) result }
{
    put_governance(to, text, line, state)?;
    put_params(to, text, line, &state.state.params)?;
    put_books(to, text, line, state)
}

/// Hands over the lines of governance, parameters and books, and of what boundaries keep.
fn put_all_but_pots<T: LineTaker>(
    to: &mut T,
    text: &mut Vec<u8>,
    line: u64,
    state: &StateView<'_>,
) -> Result<(), SinkFault>
    ensures { HasPut T.with_line T.IsPart line (T.taken to.old)
        (governance_lines (shown_of_view state.now) ++ param_lines (shown_of_view state.now).state.params
        ++ book_lines (shown_of_view state.now) ++ snapshot_lines (shown_of_view state.now)
        ++ pending_lines (shown_of_view state.now).pending)
        (T.taken to.new) (T.faults to.old) (T.faults to.new) result }
{
    put_ledger(to, text, line, state)?;
    put_snapshots(to, text, line, state.snapshots)?;
    put_pending(to, text, line, state.pending)
}

/// Hands over the lines of a state, in order. (Own)
/// Each replaces what the buffer held. After an error a prefix of the lines was taken.
pub fn put_state<T: LineTaker>(
    to: &mut T,
    text: &mut Vec<u8>,
    line: u64,
    state: &StateView<'_>,
) -> Result<(), SinkFault>
    ensures { HasPut T.with_line T.IsPart line (T.taken to.old) (lines_of_shown (shown_of_view state.now))
        (T.taken to.new) (T.faults to.old) (T.faults to.new) result }
{
    put_all_but_pots(to, text, line, state)?;
    put_one(to, text, line, &(PotsWord::Pots, state.pots))
}

/// Writes the lines of a state to a sink, one after another, each through the buffer. (Own)
pub fn write_state<K: Sink>(
    sink: &mut K,
    text: &mut Vec<u8>,
    line: u64,
    state: &StateView<'_>,
) -> Result<(), SinkFault>
    ensures ok { OnOk result (K.taken sink.new ≡
        append_known (K.taken sink.old) (text_of_lines line (lines_of_shown (shown_of_view state.now)))) }
    ensures err { OnErr result ((k : ℕ) × (K.taken sink.new ≡
        append_known (K.taken sink.old) (take k (text_of_lines line (lines_of_shown (shown_of_view state.now)))))) }
    ensures counts { CountsFaults (result ≡ Err SinkFault.WriteFault) (K.faults sink.old) (K.faults sink.new) }
{
    put_state(sink, text, line, state)
}

/// The lines of a state, each with its line feed: what is handed over, left in memory. (Own)
pub fn state_text(alloc: Global, line: u64, state: &StateView<'_>) -> Result<Vec<Vec<u8>>, NoMemory>
    ensures { IfOk result (λ lines. map (λ l. l.items) lines.items ≡
        map (line_of line) (lines_of_shown (shown_of_view state.now))) }
{
    let mut list = LineList::new(alloc);
    let mut text = Vec::new(alloc);
    match put_state(&mut list, &mut text, line, state) {
        Ok(()) => Ok(list.into_lines()),
        Err(_) => Err(NoMemory),
    }
}
