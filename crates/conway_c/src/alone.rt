//! The ledger of a run, as a state of sessions.
ghost use Rattle.std.specs.Prelude.{◌≡◌, Err, IfOk, option_map, true};
ghost use Rattle.checkpoint_model.specs.Resumed.{IsCheckpoint};
ghost use Rattle.embedded.specs.Only.{IsOfNoOther};
ghost use Rattle.line_giver.specs.OfList.{texts_of};
ghost use Rattle.record_stream.specs.Records.{is_within};
ghost use Rattle.replay_loop.specs.Answers.{AnswersAs};

use crate::replies::reply_to_reading;
use byte_lines::SinkFault;
use checkpoint_print::put_checkpoint;
use embedded::{CheckpointFault, SessionState};
use explain_loop::ExplainedState;
use hash_seed::HashSeed;
use held_ledger::{Held, answer_alone};
use listed::Boxed;
use no_memory::NoMemory;
use replay_loop::{Answered, LastState, RunState};
use report::LineTaker;
use std::alloc::Global;
use tx_records::{Pots, Reading, Record, Reply};

/// The ledger that a run holds, which counts in the caller's thread alone.
#[derive(Drop)]
pub struct Alone {
    held: Held,
}

impl RunState for Alone {
    ghost use Rattle.run_model.specs.World.{World};

    ghost world = { λ alone. alone.held.ledger };

    fn pots(&self) -> Pots {
        self.held.pots()
    }

    fn put_block<T: LineTaker>(
        &self,
        to: &mut T,
        text: &mut Vec<u8>,
        line: u64,
    ) -> Result<(), SinkFault> {
        self.held.put_block(to, text, line)
    }

    fn put_state<T: LineTaker>(
        &self,
        to: &mut T,
        text: &mut Vec<u8>,
        line: u64,
    ) -> Result<(), SinkFault> {
        self.held.put_state(to, text, line)
    }

    fn put_assets<T: LineTaker>(
        &self,
        to: &mut T,
        text: &mut Vec<u8>,
        line: u64,
    ) -> Result<(), SinkFault> {
        self.held.put_assets(to, text, line)
    }
}

impl LastState for Alone {
    fn put_short<T: LineTaker>(
        self,
        alloc: Global,
        to: &mut T,
        text: &mut Vec<u8>,
    ) -> Result<(), SinkFault> {
        self.held.put_short(alloc, to, text)
    }

    fn put_checkpoint<T: LineTaker>(
        self,
        line: u64,
        to: &mut T,
        text: &mut Vec<u8>,
    ) -> Result<(), SinkFault> {
        self.held.put_checkpoint(line, to, text)
    }

    fn put_outlook<T: LineTaker>(
        self,
        alloc: Global,
        to: &mut T,
        text: &mut Vec<u8>,
    ) -> Result<(), SinkFault> {
        self.held.put_outlook(alloc, to, text)
    }
}

impl ExplainedState for Alone {
    fn put_broken<T: LineTaker>(
        &self,
        alloc: Global,
        record: &Record,
        to: &mut T,
        text: &mut Vec<u8>,
        line: u64,
    ) -> Result<(), SinkFault> {
        self.held.put_broken(alloc, record, to, text, line)
    }
}

impl SessionState for Alone {
    fn answer_alone(
        alloc: Global,
        seed: HashSeed,
        before: Option<Alone>,
        reading: &Reading,
    ) -> Answered<Alone>
        requires within { is_within reading.now ≡ true }
        ensures { AnswersAs (λ alone. alone.held.ledger) (option_map (λ alone. alone.held.ledger) before) reading.now result }
    {
        let before = match before {
            Some(alone) => Some(alone.held),
            None => None,
        };
        let (held, outcome) = answer_alone(alloc, seed, before, reading)?;
        Ok((Alone { held }, outcome))
    }

    fn reply_alone(&self, alloc: Global, reading: &Reading) -> Result<Reply, NoMemory> {
        reply_to_reading(alloc, self.held.ledger(), reading)
    }

    fn show_checkpoint<T: LineTaker>(
        &self,
        line: u64,
        to: &mut T,
        text: &mut Vec<u8>,
    ) -> Result<(), SinkFault> {
        put_checkpoint(to, text, self.held.ledger(), line)
    }

    fn of_checkpoint(
        alloc: Global,
        seed: HashSeed,
        lines: &[Vec<u8>],
    ) -> Result<(Alone, u64), CheckpointFault> {
        match checkpoint::read(alloc, seed, lines, 1) {
            Ok((ledger, line)) => match Boxed::new(alloc, ledger) {
                Ok(ledger) => Ok((
                    Alone {
                        held: Held { ledger },
                    },
                    line,
                )),
                Err(_) => Err(CheckpointFault::NoMemory),
            },
            Err(checkpoint::CheckpointFault::Bad) => Err(CheckpointFault::Bad),
            Err(checkpoint::CheckpointFault::NoMemory) => Err(CheckpointFault::NoMemory),
        }
    }
}
