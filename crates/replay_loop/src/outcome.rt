ghost use Rattle.std.specs.Prelude.{◌≡◌, ◌++◌, ◌∷◌, [], OnOk, OnErr, Err};
ghost use Rattle.byte_lines.specs.Faults.{CountsFaults};
ghost use Rattle.replay_loop.specs.Counts.{outcome_counted};
ghost use Rattle.replay_loop.specs.Outcomes.{outcome_lines, outcome_text};
ghost use Rattle.line_runs.specs.Batches.{TellsAll, TellsPart};
ghost use Rattle.load_summary.specs.Counting.{IsCounted};
ghost use Rattle.report.specs.Taking.{HasPut};
ghost use Rattle.text_model.specs.EpochLines.{epoch_lines};
ghost use Rattle.text_model.specs.Replies.{block_words, reply_words};

use crate::run_state::RunState;
use byte_lines::{Sink, SinkFault};
use gathered_lines::Through;
use load_summary::LoadCounts;
use no_memory::NoMemory;
use report::{LineTaker, PotsWord, put_epoch, put_one, reply_line};
use tx_records::{EpochReport, Pots, Reply};

/// The outcome of a record, printed in lines of its own over the state after it.
#[derive(Drop)]
pub enum Outcome {
    /// The reply to a transaction or a reward update, and every refusal: one line.
    Answered(Reply),
    /// The pots after a genesis or for a print, in lovelace: one line.
    Pots(PotsWord, Pots),
    /// A block of the current epoch: one line.
    Block,
    /// A boundary, with the pots after it in lovelace, and then the line of the block.
    Crossed(EpochReport, Pots),
    /// A print of the state: all its lines.
    State,
    /// A print of the native assets: a line an asset.
    Assets,
}

/// Hands over the line of a reply.
fn put_reply<T: LineTaker>(
    to: &mut T,
    text: &mut Vec<u8>,
    line: u64,
    reply: &Reply,
) -> Result<(), SinkFault>
    ensures { HasPut T.with_line T.IsPart line (T.taken to.old) (reply_words reply.now ∷ []) (T.taken to.new)
        (T.faults to.old) (T.faults to.new) result }
{
    reply_line(text, line, reply)?;
    to.take(text.as_slice())
}

/// Hands over the lines of a boundary, and then that of the block.
fn put_crossing<R: RunState, T: LineTaker>(
    to: &mut T,
    text: &mut Vec<u8>,
    line: u64,
    state: &R,
    report: &EpochReport,
    pots: &Pots,
) -> Result<(), SinkFault>
    ensures { HasPut T.with_line T.IsPart line (T.taken to.old) (epoch_lines report.now pots.now ++ block_words (R.world state.now) ∷ [])
        (T.taken to.new) (T.faults to.old) (T.faults to.new) result }
{
    put_epoch(to, text, line, report, pots)?;
    state.put_block(to, text, line)
}

impl Outcome {
    /// Hands over its lines, in order; each replaces what the buffer held.
    fn put<R: RunState, T: LineTaker>(
        &self,
        state: &R,
        line: u64,
        text: &mut Vec<u8>,
        to: &mut T,
    ) -> Result<(), SinkFault>
        ensures { HasPut T.with_line T.IsPart line (T.taken to.old) (outcome_lines (R.world state.now) self.now) (T.taken to.new)
            (T.faults to.old) (T.faults to.new) result }
    {
        match self {
            Outcome::Answered(reply) => put_reply(to, text, line, reply),
            Outcome::Pots(word, pots) => put_one(to, text, line, &(*word, *pots)),
            Outcome::Block => state.put_block(to, text, line),
            Outcome::Crossed(report, pots) => put_crossing(to, text, line, state, report, pots),
            Outcome::State => state.put_state(to, text, line),
            Outcome::Assets => state.put_assets(to, text, line),
        }
    }

    /// Gathers its lines.
    fn put_through<R: RunState, K: Sink>(
        &self,
        state: &R,
        line: u64,
        text: &mut Vec<u8>,
        to: &mut Through<'_, K>,
    ) -> Result<(), SinkFault>
        ensures ok { OnOk result (TellsAll (K.taken to.old.sink.now) (K.taken to.new.sink.now) to.old.batch.now.items to.new.batch.now.items
            (outcome_text line (R.world state.now) self.now)) }
        ensures err { OnErr result (TellsPart (K.taken to.old.sink.now) (K.taken to.new.sink.now) to.old.batch.now.items to.new.batch.now.items
            (outcome_text line (R.world state.now) self.now)) }
        ensures same_batch { to.new.batch.ghost_name ≡ to.old.batch.ghost_name }
        ensures same_sink { to.new.sink.ghost_name ≡ to.old.sink.ghost_name }
        ensures counts { CountsFaults (result ≡ Err SinkFault.WriteFault) (K.faults to.old.sink.now) (K.faults to.new.sink.now) }
    {
        self.put(state, line, text, to)
    }

    /// Tells its text over the state after the record, line by line, through one buffer.
    pub(crate) fn write<R: RunState, K: Sink>(
        self,
        state: &R,
        number: u64,
        text: &mut Vec<u8>,
        batch: &mut Vec<u8>,
        sink: &mut K,
    ) -> Result<(), SinkFault>
        ensures ok { OnOk result (TellsAll (K.taken sink.old) (K.taken sink.new) batch.old.items batch.new.items
            (outcome_text number (R.world state.now) self)) }
        ensures err { OnErr result (TellsPart (K.taken sink.old) (K.taken sink.new) batch.old.items batch.new.items
            (outcome_text number (R.world state.now) self)) }
        ensures counts { CountsFaults (result ≡ Err SinkFault.WriteFault) (K.faults sink.old) (K.faults sink.new) }
    {
        let mut to = Through { batch, sink };
        self.put_through(state, number, text, &mut to)
    }

    /// Adds it to the counts of a summary.
    pub(crate) fn count(&self, counts: &mut LoadCounts) -> Result<(), NoMemory>
        ensures { IsCounted counts.old (outcome_counted counts.old self.now) counts.new result }
    {
        match self {
            Outcome::Answered(reply) => counts.count_reply(reply),
            Outcome::Pots(_, _) | Outcome::State | Outcome::Assets => counts.count_other(),
            Outcome::Block => counts.count_block(),
            Outcome::Crossed(report, _) => counts.count_crossing(report),
        }
    }
}
