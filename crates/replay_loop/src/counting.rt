use crate::outcome::Outcome;
use crate::run_state::RunState;
use crate::teller::Teller;
use byte_lines::{Sink, SinkFault};
use line_runs::hand_over;
use load_options::LoadCommand;
use load_summary::{LoadCounts, write_load};
use std::alloc::Global;
use tx_records::Reading;

/// Counts the outcomes of the records of `load`, and tells its summary at the end.
#[derive(Drop)]
pub(crate) struct Counting {
    pub(crate) alloc: Global,
    pub(crate) command: LoadCommand,
    pub(crate) counts: LoadCounts,
}

impl<R: RunState + Drop> Teller<R> for Counting {
    ghost use Rattle.replay_loop.specs.Counts.{Counted, counts_told};

    ghost Kept = { Counted };

    ghost kept = { λ c. record { command = c.command; counts = c.counts } };

    ghost telling = { counts_told };

    fn ahead<K: Sink>(
        &mut self,
        _state: &R,
        _reading: &Reading,
        _batch: &mut Vec<u8>,
        _sink: &mut K,
    ) -> Result<(), SinkFault> {
        Ok(())
    }

    fn tell<K: Sink>(
        &mut self,
        _state: &R,
        outcome: Outcome,
        _number: u64,
        _batch: &mut Vec<u8>,
        _sink: &mut K,
    ) -> Result<(), SinkFault> {
        outcome.count(&mut self.counts)?;
        Ok(())
    }

    fn close<K: Sink>(
        &mut self,
        state: R,
        _number: u64,
        batch: &mut Vec<u8>,
        sink: &mut K,
    ) -> Result<(), SinkFault> {
        hand_over(batch, sink)?;
        let summary = self.counts.summary(
            self.command.seed,
            self.command.accounts,
            self.command.epochs,
            state.pots(),
        );
        write_load(self.alloc, sink, &summary)
    }
}
