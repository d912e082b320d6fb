//! The program as a command over records.
ghost use Rattle.std.specs.Prelude.{◌≡◌, Err, OnErr, OnOk};
ghost use Rattle.byte_lines.specs.Faults.{CountsFaults};
ghost use Rattle.line_runs.specs.Batches.{TellsAll, TellsPart};
ghost use Rattle.held_ledger.specs.of_replay_loop.Ports.{IsReadRun};
ghost use Rattle.text_model.specs.Runs.{text_of_lines};
ghost use Rattle.voting_lines.specs.Told.{voting_lines, votes_told};

use crate::told::put_ledger;
use byte_lines::{Sink, SinkFault, Source};
use gathered_lines::Through;
use held_ledger::of_replay_loop::{Outcome, Status, Teller};
use held_ledger::{Crew, Held, tell};
use par_count::Gate;
use std::alloc::Global;
use std::thread::Threads;
use tx_records::Reading;

/// Tells nothing of a record, and at the end the live proposals of the last ledger.
#[derive(Drop)]
pub struct Votes {
    alloc: Global,
    text: Vec<u8>,
    // the line of the last record
    line: u64,
}

/// Gathers the lines of the live proposals of a ledger.
fn put_through<K: Sink>(
    alloc: Global,
    state: &Held,
    line: u64,
    text: &mut Vec<u8>,
    to: &mut Through<'_, K>,
) -> Result<(), SinkFault>
    ensures ok { OnOk result (TellsAll (K.taken to.old.sink.now) (K.taken to.new.sink.now) to.old.batch.now.items to.new.batch.now.items
        (text_of_lines line (voting_lines state.now.ledger))) }
    ensures err { OnErr result (TellsPart (K.taken to.old.sink.now) (K.taken to.new.sink.now) to.old.batch.now.items to.new.batch.now.items
        (text_of_lines line (voting_lines state.now.ledger))) }
    ensures same_batch { to.new.batch.ghost_name ≡ to.old.batch.ghost_name }
    ensures same_sink { to.new.sink.ghost_name ≡ to.old.sink.ghost_name }
    ensures counts { CountsFaults (result ≡ Err SinkFault.WriteFault) (K.faults to.old.sink.now) (K.faults to.new.sink.now) }
{
    put_ledger(alloc, to, text, line, state.ledger())
}

impl Teller<Held> for Votes {
    ghost use Rattle.std.specs.Prelude.{ℕ};
    ghost use Rattle.voting_lines.specs.Told.{votes_told};

    ghost Kept = { ℕ };

    ghost kept = { λ v. v.line };

    ghost telling = { votes_told };

    fn ahead<K: Sink>(
        &mut self,
        _state: &Held,
        _reading: &Reading,
        _batch: &mut Vec<u8>,
        _sink: &mut K,
    ) -> Result<(), SinkFault> {
        Ok(())
    }

    fn tell<K: Sink>(
        &mut self,
        _state: &Held,
        _outcome: Outcome,
        number: u64,
        _batch: &mut Vec<u8>,
        _sink: &mut K,
    ) -> Result<(), SinkFault> {
        self.line = number;
        Ok(())
    }

    fn close<K: Sink>(
        &mut self,
        state: Held,
        _number: u64,
        batch: &mut Vec<u8>,
        sink: &mut K,
    ) -> Result<(), SinkFault> {
        let mut to = Through { batch, sink };
        put_through(self.alloc, &state, self.line, &mut self.text, &mut to)
    }
}

/// Reads the records of a source, and writes the live proposals of the ledger after the last.
/// Where there is no ledger it writes nothing.
pub fn report_votes<R: Threads + Sync, S: Source, K: Sink, G: Gate + Sync>(
    crew: &Crew<R, G>,
    source: &mut S,
    sink: &mut K,
) -> Status
    ensures runs { IsReadRun (record { left = S.left; failed_reads = S.faults; taken = K.taken; failed_writes = K.faults })
        (source.old, sink.old) (source.new, sink.new) result votes_told 0 }
    ensures reads { CountsFaults (result ≡ Status.ReadFault) (S.faults source.old) (S.faults source.new) }
    ensures writes { CountsFaults (result ≡ Status.WriteFault) (K.faults sink.old) (K.faults sink.new) }
{
    let votes = Votes {
        alloc: crew.alloc,
        text: Vec::new(crew.alloc),
        line: 0,
    };
    Status::of(tell(crew, 1, votes, source, sink))
}
