ghost use Rattle.std.specs.Prelude.{◌≡◌, Err, OnErr, OnOk};
ghost use Rattle.byte_lines.specs.Faults.{CountsFaults};
ghost use Rattle.line_runs.specs.Batches.{TellsAll, TellsPart};
ghost use Rattle.text_forms.specs.Lines.{text_of_bare};

use crate::outcome::Outcome;
use crate::run_state::{LastState, RunState};
use crate::teller::Teller;
use byte_lines::{Sink, SinkFault};
use gathered_lines::Through;
use report::LineTaker;
use std::alloc::Global;
use std::marker::PhantomData;
use tx_records::Reading;

// The lines of the end of a run, over its last state.
pub(crate) trait LastLines<R: RunState> {
    ghost use Rattle.std.specs.Prelude.{◌≡◌, ℕ, List};
    ghost use Rattle.gathered_lines.specs.of_bare_lines.Bare.{bare, bare_part};
    ghost use Rattle.gathered_lines.specs.Through.{HaveWords};
    ghost use Rattle.report.specs.Taking.{HasPut};
    ghost use Rattle.run_model.specs.World.{World};
    ghost use Rattle.text_model.specs.Words.{Text};

    // the words of each line, over the last state, after so many lines of input
    ghost lines: { World → ℕ → List (List Text) };

    // It does nothing: each line has a word.
    fn have_words()
        ensures { (w : World) (n : ℕ) → HaveWords (lines w n) };

    // Hands them over, without numbers. It consumes the state.
    fn put<T: LineTaker>(
        alloc: Global,
        state: R,
        number: u64,
        to: &mut T,
        text: &mut Vec<u8>,
    ) -> Result<(), SinkFault>
        ensures { HasPut (bare T.with_line) (bare_part T.IsPart) 0 (T.taken to.old) (lines (R.world state) number) (T.taken to.new)
            (T.faults to.old) (T.faults to.new) result };
}

// What each frozen proposal lacks.
pub(crate) struct Shortfalls;

// The tallies of the next two boundaries.
pub(crate) struct Outlooks;

// The whole state.
pub(crate) struct Checkpoints;

impl<R: LastState> LastLines<R> for Shortfalls {
    ghost use Rattle.shortfall_model.specs.ShortLines.{shortfall_lines};

    ghost lines = { λ w n. shortfall_lines w.frozen };

    fn have_words() {}

    fn put<T: LineTaker>(
        alloc: Global,
        state: R,
        _number: u64,
        to: &mut T,
        text: &mut Vec<u8>,
    ) -> Result<(), SinkFault> {
        state.put_short(alloc, to, text)
    }
}

impl<R: LastState> LastLines<R> for Outlooks {
    ghost use Rattle.outlook_model.specs.Outlook.{outlook_lines};

    ghost lines = { λ w n. outlook_lines w };

    fn have_words() {}

    fn put<T: LineTaker>(
        alloc: Global,
        state: R,
        _number: u64,
        to: &mut T,
        text: &mut Vec<u8>,
    ) -> Result<(), SinkFault> {
        state.put_outlook(alloc, to, text)
    }
}

impl<R: LastState> LastLines<R> for Checkpoints {
    ghost use Rattle.checkpoint_model.specs.Checkpoint.{checkpoint_lines};

    ghost lines = { checkpoint_lines };

    fn have_words() {}

    fn put<T: LineTaker>(
        _alloc: Global,
        state: R,
        number: u64,
        to: &mut T,
        text: &mut Vec<u8>,
    ) -> Result<(), SinkFault> {
        state.put_checkpoint(number, to, text)
    }
}

// Tells nothing of a record, and at the end these lines, through a buffer.
#[derive(Drop)]
pub(crate) struct AtEnd<L> {
    alloc: Global,
    text: Vec<u8>,
    lines: PhantomData<L>,
}

impl<L> AtEnd<L> {
    // Before the first record.
    pub(crate) fn new(alloc: Global) -> AtEnd<L> {
        AtEnd {
            alloc,
            text: Vec::new(alloc),
            lines: PhantomData,
        }
    }
}

// Gathers the lines over a state.
fn put_through<R: RunState, L: LastLines<R>, K: Sink>(
    alloc: Global,
    state: R,
    number: u64,
    text: &mut Vec<u8>,
    to: &mut Through<'_, K>,
) -> Result<(), SinkFault>
    ensures ok { OnOk result (TellsAll (K.taken to.old.sink.now) (K.taken to.new.sink.now) to.old.batch.now.items to.new.batch.now.items
        (text_of_bare (L.lines (R.world state) number))) }
    ensures err { OnErr result (TellsPart (K.taken to.old.sink.now) (K.taken to.new.sink.now) to.old.batch.now.items to.new.batch.now.items
        (text_of_bare (L.lines (R.world state) number))) }
    ensures same_batch { to.new.batch.ghost_name ≡ to.old.batch.ghost_name }
    ensures same_sink { to.new.sink.ghost_name ≡ to.old.sink.ghost_name }
    ensures counts { CountsFaults (result ≡ Err SinkFault.WriteFault) (K.faults to.old.sink.now) (K.faults to.new.sink.now) }
{
    L::have_words();
    L::put(alloc, state, number, to, text)
}

impl<R: RunState + Drop, L: LastLines<R>> Teller<R> for AtEnd<L> {
    ghost use Rattle.replay_loop.specs.Plays.{last_told};

    ghost Kept = { Unit {0} };

    ghost kept = { λ _. tt };

    ghost telling = { last_told L.lines };

    fn ahead<K: Sink>(
        &mut self,
        _state: &R,
        _reading: &Reading,
        _batch: &mut Vec<u8>,
        _sink: &mut K,
    ) -> Result<(), SinkFault> {
        Ok(())
    }

    fn tell<K: Sink>(
        &mut self,
        _state: &R,
        _outcome: Outcome,
        _number: u64,
        _batch: &mut Vec<u8>,
        _sink: &mut K,
    ) -> Result<(), SinkFault> {
        Ok(())
    }

    fn close<K: Sink>(
        &mut self,
        state: R,
        number: u64,
        batch: &mut Vec<u8>,
        sink: &mut K,
    ) -> Result<(), SinkFault> {
        let mut to = Through { batch, sink };
        put_through::<R, L, K>(self.alloc, state, number, &mut self.text, &mut to)
    }
}
