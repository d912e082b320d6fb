//! The lines of a reading and of its notes, ahead of the answer to it.
ghost use Rattle.std.specs.Prelude.{◌≡◌, Err, IfOk, OnErr, OnOk, option_map, true};
ghost use Rattle.byte_lines.specs.Faults.{CountsFaults};
ghost use Rattle.explain_print.specs.of_explain_model.Explained.{broken_lines, explained_lines};
ghost use Rattle.explain_print.specs.of_explain_model.of_record_notes.Seen.{noted_seen};
ghost use Rattle.explain_print.specs.of_explain_model.of_record_notes.of_record_stream.Records.{is_within};
ghost use Rattle.line_runs.specs.Batches.{TellsAll, TellsPart};
ghost use Rattle.report.specs.Taking.{HasPut};
ghost use Rattle.text_model.specs.Runs.{text_of_lines};
ghost use Rattle.explain_loop.specs.Turns.{told_lines};

use crate::state::ExplainedState;
use byte_lines::{Sink, SinkFault};
use explain_print::of_explain_model::of_record_notes::Noted;
use explain_print::{put_first, put_malformed, put_notes, put_too_long};
use gathered_lines::Through;
use report::LineTaker;
use std::alloc::Global;
use tx_records::Reading;

/// Hands over a line for each rule that a reading breaks over a state, in order.
fn put_rules_of<R: ExplainedState, T: LineTaker>(
    alloc: Global,
    state: &R,
    reading: &Reading,
    to: &mut T,
    text: &mut Vec<u8>,
    line: u64,
) -> Result<(), SinkFault>
    requires { is_within reading.now ≡ true }
    ensures { HasPut T.with_line T.IsPart line (T.taken to.old) (broken_lines (R.world state.now) reading.now) (T.taken to.new)
        (T.faults to.old) (T.faults to.new) result }
{
    match reading {
        Reading::Read(record) => state.put_broken(alloc, record, to, text, line),
        Reading::Malformed { what, place } => put_malformed(to, text, line, *what, *place),
        Reading::TooLong => put_too_long(to, text, line),
    }
}

/// Hands over a line for each rule that a reading breaks over a state, and then for each note of
/// it, in order. Each line replaces what the buffer held.
pub fn put_explained<R: ExplainedState, T: LineTaker>(
    alloc: Global,
    state: &R,
    noted: &Noted,
    to: &mut T,
    text: &mut Vec<u8>,
    line: u64,
) -> Result<(), SinkFault>
    requires { is_within noted.now.reading ≡ true }
    ensures { HasPut T.with_line T.IsPart line (T.taken to.old) (explained_lines (R.world state.now) (noted_seen noted.now)) (T.taken to.new)
        (T.faults to.old) (T.faults to.new) result }
{
    put_rules_of(alloc, state, &noted.reading, to, text, line)?;
    put_notes(to, text, line, noted.notes.as_slice())
}

/// Hands over the lines of a reading and its notes, over the state before it, if there is one.
fn put<R: ExplainedState, T: LineTaker>(
    before: &Option<R>,
    alloc: Global,
    noted: &Noted,
    to: &mut T,
    text: &mut Vec<u8>,
    line: u64,
) -> Result<(), SinkFault>
    requires { is_within noted.now.reading ≡ true }
    ensures { HasPut T.with_line T.IsPart line (T.taken to.old) (told_lines (option_map R.world before.now) (noted_seen noted.now)) (T.taken to.new)
        (T.faults to.old) (T.faults to.new) result }
{
    match before {
        Some(state) => put_explained(alloc, state, noted, to, text, line),
        None => put_first(alloc, to, text, line, noted),
    }
}

/// Gathers them.
fn put_through<R: ExplainedState, K: Sink>(
    before: &Option<R>,
    alloc: Global,
    noted: &Noted,
    to: &mut Through<'_, K>,
    text: &mut Vec<u8>,
    line: u64,
) -> Result<(), SinkFault>
    requires { is_within noted.now.reading ≡ true }
    ensures ok { OnOk result (TellsAll (K.taken to.old.sink.now) (K.taken to.new.sink.now) to.old.batch.now.items to.new.batch.now.items
        (text_of_lines line (told_lines (option_map R.world before.now) (noted_seen noted.now)))) }
    ensures err { OnErr result (TellsPart (K.taken to.old.sink.now) (K.taken to.new.sink.now) to.old.batch.now.items to.new.batch.now.items
        (text_of_lines line (told_lines (option_map R.world before.now) (noted_seen noted.now)))) }
    ensures same_batch { to.new.batch.ghost_name ≡ to.old.batch.ghost_name }
    ensures same_sink { to.new.sink.ghost_name ≡ to.old.sink.ghost_name }
    ensures counts { CountsFaults (result ≡ Err SinkFault.WriteFault) (K.faults to.old.sink.now) (K.faults to.new.sink.now) }
{
    put(before, alloc, noted, to, text, line)
}

/// Tells the lines of the reading of the line of this number, and of its notes, over the state
/// before it.
fn write<R: ExplainedState, K: Sink>(
    before: &Option<R>,
    alloc: Global,
    noted: &Noted,
    number: u64,
    text: &mut Vec<u8>,
    batch: &mut Vec<u8>,
    sink: &mut K,
) -> Result<(), SinkFault>
    requires { is_within noted.now.reading ≡ true }
    ensures ok { OnOk result (TellsAll (K.taken sink.old) (K.taken sink.new) batch.old.items batch.new.items
        (text_of_lines number (told_lines (option_map R.world before.now) (noted_seen noted.now)))) }
    ensures err { OnErr result (TellsPart (K.taken sink.old) (K.taken sink.new) batch.old.items batch.new.items
        (text_of_lines number (told_lines (option_map R.world before.now) (noted_seen noted.now)))) }
    ensures counts { CountsFaults (result ≡ Err SinkFault.WriteFault) (K.faults sink.old) (K.faults sink.new) }
{
    let mut to = Through { batch, sink };
    put_through(before, alloc, noted, &mut to, text, number)
}

/// Tells them, drops the notes and returns the reading.
pub(crate) fn write_noted<R: ExplainedState, K: Sink>(
    before: &Option<R>,
    alloc: Global,
    noted: Noted,
    number: u64,
    text: &mut Vec<u8>,
    batch: &mut Vec<u8>,
    sink: &mut K,
) -> Result<Reading, SinkFault>
    requires { is_within noted.reading ≡ true }
    ensures ok { OnOk result (TellsAll (K.taken sink.old) (K.taken sink.new) batch.old.items batch.new.items
        (text_of_lines number (told_lines (option_map R.world before.now) (noted_seen noted)))) }
    ensures reading { IfOk result (λ reading. reading ≡ noted.reading) }
    ensures err { OnErr result (TellsPart (K.taken sink.old) (K.taken sink.new) batch.old.items batch.new.items
        (text_of_lines number (told_lines (option_map R.world before.now) (noted_seen noted)))) }
    ensures counts { CountsFaults (result ≡ Err SinkFault.WriteFault) (K.faults sink.old) (K.faults sink.new) }
{
    match write(before, alloc, &noted, number, text, batch, sink) {
        Ok(()) => Ok(noted.reading),
        Err(fault) => Err(fault),
    }
}
