use crate::outcome::Outcome;
use crate::run_state::RunState;
use byte_lines::{Sink, SinkFault};
use tx_records::Reading;

/// What a command tells of the records of a run, and what it keeps of them.
pub trait Teller<R: RunState> {
    ghost use Rattle.std.specs.Prelude.{◌≡◌, Err, OnErr, OnOk};
    ghost use Rattle.byte_lines.specs.Faults.{CountsFaults};
    ghost use Rattle.line_runs.specs.Batches.{TellsAll, TellsPart};
    ghost use Rattle.replay_loop.specs.Plays.{Telling};

    ghost Kept: { Type 0 };

    ghost kept: { Self → Kept };

    ghost telling: { Telling Kept };

    /// Tells what comes ahead of the answer to a record, over the state before it.
    fn ahead<K: Sink>(
        &mut self,
        state: &R,
        reading: &Reading,
        batch: &mut Vec<u8>,
        sink: &mut K,
    ) -> Result<(), SinkFault>
        ensures keeps { kept self.new ≡ kept self.old }
        ensures ok { OnOk result (TellsAll (K.taken sink.old) (K.taken sink.new) batch.old.items batch.new.items
            (telling.aheads (kept self.old) (R.world state.now) reading.now)) }
        ensures err { OnErr result (TellsPart (K.taken sink.old) (K.taken sink.new) batch.old.items batch.new.items
            (telling.aheads (kept self.old) (R.world state.now) reading.now)) }
        ensures counts { CountsFaults (result ≡ Err SinkFault.WriteFault) (K.faults sink.old) (K.faults sink.new) };

    /// Tells the outcome of the record of this line, over the state after it.
    fn tell<K: Sink>(
        &mut self,
        state: &R,
        outcome: Outcome,
        number: u64,
        batch: &mut Vec<u8>,
        sink: &mut K,
    ) -> Result<(), SinkFault>
        ensures keeps { OnOk result (kept self.new ≡ telling.keeps (kept self.old) number (R.world state.now) outcome) }
        ensures ok { OnOk result (TellsAll (K.taken sink.old) (K.taken sink.new) batch.old.items batch.new.items
            (telling.tells (kept self.old) number (R.world state.now) outcome)) }
        ensures err { OnErr result (TellsPart (K.taken sink.old) (K.taken sink.new) batch.old.items batch.new.items
            (telling.tells (kept self.old) number (R.world state.now) outcome)) }
        ensures counts { CountsFaults (result ≡ Err SinkFault.WriteFault) (K.faults sink.old) (K.faults sink.new) };

    /// Tells the text at the end, over the last state, after so many lines. It consumes the state.
    fn close<K: Sink>(
        &mut self,
        state: R,
        number: u64,
        batch: &mut Vec<u8>,
        sink: &mut K,
    ) -> Result<(), SinkFault>
        ensures ok { OnOk result (TellsAll (K.taken sink.old) (K.taken sink.new) batch.old.items batch.new.items
            (telling.closes (kept self.old) (R.world state) number)) }
        ensures err { OnErr result (TellsPart (K.taken sink.old) (K.taken sink.new) batch.old.items batch.new.items
            (telling.closes (kept self.old) (R.world state) number)) }
        ensures counts { CountsFaults (result ≡ Err SinkFault.WriteFault) (K.faults sink.old) (K.faults sink.new) };
}
