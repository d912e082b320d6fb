//! The lines of an outcome of a replay.
ghost use Rattle.std.specs.Prelude.{◌≡◌, ◌++◌, ◌∷◌, []};
ghost use Rattle.replay_loop.specs.Outcomes.{outcome_lines};
ghost use Rattle.report.specs.Taking.{HasPut};
ghost use Rattle.text_model.specs.EpochLines.{epoch_lines};
ghost use Rattle.text_model.specs.Replies.{block_words, reply_words};

use byte_lines::SinkFault;
use replay_loop::{Outcome, RunState};
use report::{LineTaker, put_epoch, put_one, reply_line};
use tx_records::{EpochReport, Pots, Reply};

// Hands over the line of a reply.
fn put_reply<T: LineTaker>(
    to: &mut T,
    text: &mut Vec<u8>,
    line: u64,
    reply: &Reply,
) -> Result<(), SinkFault>
    ensures { HasPut T.with_line T.IsPart line (T.taken to.old) (reply_words reply.now ∷ []) (T.taken to.new)
        (T.faults to.old) (T.faults to.new) result }
{
    reply_line(text, line, reply)?;
    to.take(text.as_slice())
}

// Hands over the lines of a boundary, and then that of the block.
fn put_crossing<R: RunState, T: LineTaker>(
    to: &mut T,
    text: &mut Vec<u8>,
    line: u64,
    state: &R,
    report: &EpochReport,
    pots: &Pots,
) -> Result<(), SinkFault>
    ensures { HasPut T.with_line T.IsPart line (T.taken to.old) (epoch_lines report.now pots.now ++ block_words (R.world state.now) ∷ [])
        (T.taken to.new) (T.faults to.old) (T.faults to.new) result }
{
    put_epoch(to, text, line, report, pots)?;
    state.put_block(to, text, line)
}

// Hands over the lines of an outcome over the state after its record, in order.
pub(crate) fn put_plain<R: RunState, T: LineTaker>(
    outcome: &Outcome,
    state: &R,
    line: u64,
    text: &mut Vec<u8>,
    to: &mut T,
) -> Result<(), SinkFault>
    ensures { HasPut T.with_line T.IsPart line (T.taken to.old) (outcome_lines (R.world state.now) outcome.now) (T.taken to.new)
        (T.faults to.old) (T.faults to.new) result }
{
    match outcome {
        Outcome::Answered(reply) => put_reply(to, text, line, reply),
        Outcome::Pots(word, pots) => put_one(to, text, line, &(*word, *pots)),
        Outcome::Block => state.put_block(to, text, line),
        Outcome::Crossed(report, pots) => put_crossing(to, text, line, state, report, pots),
        Outcome::State => state.put_state(to, text, line),
        Outcome::Assets => state.put_assets(to, text, line),
    }
}
