ghost use Rattle.std.specs.Prelude.{◌≡◌, ◌≢◌, ◌↔◌, ◌≤◌, ◌<◌, ℕ, List, [], Err, OnErr, OnOk, Option, Some, None, IsTrue, length, take};
ghost use Rattle.std.specs.Io.KnownBytes.{append_known};
ghost use Rattle.byte_lines.specs.Faults.{CountsFaults};
ghost use Rattle.byte_lines.specs.Pieces.{has_feed};
ghost use Rattle.byte_lines.specs.Progress.{HasRead};
ghost use Rattle.line_runs.specs.Batches.{Gathered};
ghost use Rattle.line_runs.specs.Loop.{IsCleared, IsClosed, IsTaken, Leaves};
ghost use Rattle.line_runs.specs.Runs.{IsRunOf};

use crate::batch::hand_over;
use crate::command::LineCommand;
use crate::fault::RunFault;
use byte_lines::{Line, Lines, Sink, SinkFault, Source, whole_lines};
use memchr::memchr;
use std::alloc::Global;

// Hands over the gathered text, unless the next line was read whole: then nothing is asked for.
fn make_way<K: Sink>(ahead: &[u8], batch: &mut Vec<u8>, sink: &mut K) -> Result<(), SinkFault>
    ensures ok { OnOk result (IsCleared (has_feed ahead.now) (record { taken = K.taken sink.old; batch = batch.old.items })
        (record { taken = K.taken sink.new; batch = batch.new.items })) }
    ensures err { OnErr result ((n : ℕ) × (n < length batch.old.items)
        × (K.taken sink.new ≡ append_known (K.taken sink.old) (take n batch.old.items)) × (batch.new.items ≡ [])) }
    ensures counts { CountsFaults (result ≡ Err SinkFault.WriteFault) (K.faults sink.old) (K.faults sink.new) }
{
    match memchr(b'\n', ahead) {
        Some(_) => Ok(()),
        None => hand_over(batch, sink),
    }
}

// Lets the command take the line that was read, or the end.
fn take_line<K: Sink, C: LineCommand>(
    line: Line,
    lines: &Lines,
    command: &mut C,
    batch: &mut Vec<u8>,
    sink: &mut K,
) -> Result<(), RunFault<C::Cause>>
    requires { C.can command.old }
    ensures can { C.can command.new }
    ensures takes { (s : C.Stand) → C.stands command.old s → IsTaken C.play (C.stands command.new) s lines.now line
        (record { taken = K.taken sink.old; batch = batch.old.items })
        (record { taken = K.taken sink.new; batch = batch.new.items }) result }
    ensures reads { result ≢ Err RunFault.ReadFault }
    ensures counts { CountsFaults (result ≡ Err RunFault.WriteFault) (K.faults sink.old) (K.faults sink.new) }
{
    match line {
        Line::Whole => command.line(lines.number(), Some(lines.text()), batch, sink),
        Line::TooLong => command.line(lines.number(), None, batch, sink),
        Line::End => command.end(lines.number(), batch, sink),
    }
}

// Reads all lines, and leaves the text of the last ones gathered.
fn read_on<S: Source, K: Sink, C: LineCommand>(
    lines: &mut Lines,
    command: &mut C,
    batch: &mut Vec<u8>,
    source: &mut S,
    sink: &mut K,
) -> Result<(), RunFault<C::Cause>>
    requires can { C.can command.old }
    requires within { lines.old.taken ≤ lines.old.stream_max }
    ensures leaves { (s : C.Stand) (bytes : List ℕ) (given : List (Option (List ℕ))) → C.stands command.old s →
        HasRead bytes lines.old (S.left source.old) given → batch.old.items ≡ [] →
        Leaves (record { play = C.play; first = s; passed = lines.old.number; line_max = lines.old.line_max; stream_max = lines.old.stream_max })
        bytes (S.left source.new) (K.taken sink.old) (record { taken = K.taken sink.new; batch = batch.new.items }) result }
    ensures nothing { result ≡ Err RunFault.ReadFault → batch.new.items ≡ [] }
    ensures reads { CountsFaults (result ≡ Err RunFault.ReadFault) (S.faults source.old) (S.faults source.new) }
    ensures writes { CountsFaults (result ≡ Err RunFault.WriteFault) (K.faults sink.old) (K.faults sink.new) }
{
    // (laws: how bytes are cut into lines)
    whole_lines();
    loop {
        make_way(lines.ahead(), batch, sink)?;
        let line = lines.next(source)?;
        take_line(line, lines, command, batch, sink)?;
        if line == Line::End {
            return Ok(());
        }
    }
}

// Whether a write failed.
fn is_write_fault<X>(ended: &Result<(), RunFault<X>>) -> bool
    ensures { IsTrue result ↔ (ended.now ≡ Err RunFault.WriteFault) }
{
    match ended {
        Err(RunFault::WriteFault) => true,
        Ok(()) => false,
        Err(RunFault::Stop(_)) => false,
        Err(RunFault::ReadFault | RunFault::NoMemory | RunFault::TooMuch) => false,
    }
}

// Hands over what is gathered at the end, and returns how the run ended.
fn close<K: Sink, X: Drop>(
    ended: Result<(), RunFault<X>>,
    batch: &mut Vec<u8>,
    sink: &mut K,
) -> Result<(), RunFault<X>>
    requires { ended ≢ Err RunFault.WriteFault }
    ensures closes { IsClosed ended batch.old.items (K.taken sink.old) (K.taken sink.new) result }
    ensures reads { (ended ≡ Err RunFault.ReadFault → batch.old.items ≡ []) → (result ≡ Err RunFault.ReadFault) ↔ (ended ≡ Err RunFault.ReadFault) }
    ensures counts { CountsFaults (result ≡ Err RunFault.WriteFault) (K.faults sink.old) (K.faults sink.new) }
{
    match hand_over(batch, sink) {
        Ok(()) => ended,
        Err(fault) => {
            drop(ended);
            Err(RunFault::from(fault))
        }
    }
}

/// Reads the lines of a source to its end, and lets the command take each.
/// Its text is handed over before the source is asked for more, and at each end.
pub fn run_lines<S: Source, K: Sink, C: LineCommand>(
    alloc: Global,
    lines: &mut Lines,
    command: &mut C,
    source: &mut S,
    sink: &mut K,
) -> Result<(), RunFault<C::Cause>>
    requires can { C.can command.old }
    requires within { lines.old.taken ≤ lines.old.stream_max }
    ensures runs { (s : C.Stand) (bytes : List ℕ) (given : List (Option (List ℕ))) → C.stands command.old s →
        HasRead bytes lines.old (S.left source.old) given →
        IsRunOf (record { play = C.play; first = s; passed = lines.old.number; line_max = lines.old.line_max; stream_max = lines.old.stream_max })
        bytes (S.left source.new) (K.taken sink.old) (K.taken sink.new) result }
    ensures reads { CountsFaults (result ≡ Err RunFault.ReadFault) (S.faults source.old) (S.faults source.new) }
    ensures writes { CountsFaults (result ≡ Err RunFault.WriteFault) (K.faults sink.old) (K.faults sink.new) }
{
    let mut batch = Vec::new(alloc);
    let ended = read_on(lines, command, &mut batch, source, sink);
    if is_write_fault(&ended) {
        return ended;
    }
    close(ended, &mut batch, sink)
}
