use crate::outcome::Outcome;
use crate::run_state::RunState;
use crate::teller::Teller;
use byte_lines::{Sink, SinkFault};
use std::alloc::Global;
use tx_records::Reading;

/// Tells the text of each record, line by line, through one buffer.
#[derive(Drop)]
pub struct TextTeller {
    text: Vec<u8>,
}

impl TextTeller {
    /// Before the first record.
    pub fn new(alloc: Global) -> TextTeller {
        TextTeller {
            text: Vec::new(alloc),
        }
    }
}

impl<R: RunState + Drop> Teller<R> for TextTeller {
    ghost use Rattle.replay_loop.specs.Texts.{texts_told};

    ghost Kept = { Unit {0} };

    ghost kept = { λ _. tt };

    ghost telling = { texts_told };

    fn ahead<K: Sink>(
        &mut self,
        _state: &R,
        _reading: &Reading,
        _batch: &mut Vec<u8>,
        _sink: &mut K,
    ) -> Result<(), SinkFault> {
        Ok(())
    }

    fn tell<K: Sink>(
        &mut self,
        state: &R,
        outcome: Outcome,
        number: u64,
        batch: &mut Vec<u8>,
        sink: &mut K,
    ) -> Result<(), SinkFault> {
        outcome.write(state, number, &mut self.text, batch, sink)
    }

    fn close<K: Sink>(
        &mut self,
        _state: R,
        _number: u64,
        _batch: &mut Vec<u8>,
        _sink: &mut K,
    ) -> Result<(), SinkFault> {
        Ok(())
    }
}
