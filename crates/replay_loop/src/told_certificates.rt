ghost use Rattle.std.specs.Prelude.{◌≡◌, Err, OnErr, OnOk};
ghost use Rattle.byte_lines.specs.Faults.{CountsFaults};
ghost use Rattle.certificate_model.specs.Certificate.{certificate_text};
ghost use Rattle.line_runs.specs.Batches.{TellsAll, TellsPart};
ghost use Rattle.replay_loop.specs.Certificates.{block_in, certificate_before};

use crate::outcome::Outcome;
use crate::run_state::{CertifiedState, RunState};
use crate::teller::Teller;
use byte_lines::{Sink, SinkFault};
use gathered_lines::Through;
use std::alloc::Global;
use tx_records::{Reading, Record};

/// Tells the certificate of an epoch ahead of the block that ends it, through one buffer.
#[derive(Drop)]
pub(crate) struct Certificates {
    alloc: Global,
    text: Vec<u8>,
}

impl Certificates {
    /// Before the first record.
    pub(crate) fn new(alloc: Global) -> Certificates {
        Certificates {
            alloc,
            text: Vec::new(alloc),
        }
    }
}

// Gathers the certificate of a state's epoch.
fn put_through<R: CertifiedState, K: Sink>(
    alloc: Global,
    state: &R,
    text: &mut Vec<u8>,
    to: &mut Through<'_, K>,
) -> Result<(), SinkFault>
    ensures ok { OnOk result (TellsAll (K.taken to.old.sink.now) (K.taken to.new.sink.now) to.old.batch.now.items to.new.batch.now.items
        (certificate_text (R.world state.now).frozen)) }
    ensures err { OnErr result (TellsPart (K.taken to.old.sink.now) (K.taken to.new.sink.now) to.old.batch.now.items to.new.batch.now.items
        (certificate_text (R.world state.now).frozen)) }
    ensures same_batch { to.new.batch.ghost_name ≡ to.old.batch.ghost_name }
    ensures same_sink { to.new.sink.ghost_name ≡ to.old.sink.ghost_name }
    ensures counts { CountsFaults (result ≡ Err SinkFault.WriteFault) (K.faults to.old.sink.now) (K.faults to.new.sink.now) }
{
    state.put_certificate(alloc, to, text)
}

// The slot and the pulse of a block.
fn block_of(reading: &Reading) -> Option<(u64, u32)>
    ensures { result ≡ block_in reading.now }
{
    match reading {
        Reading::Read(Record::Block { slot, pulse }) => Some((*slot, *pulse)),
        _ => None,
    }
}

// Tells the certificate of a state's epoch if there is a block that ends it.
fn tell_end<R: CertifiedState, K: Sink>(
    alloc: Global,
    state: &R,
    block: Option<(u64, u32)>,
    text: &mut Vec<u8>,
    batch: &mut Vec<u8>,
    sink: &mut K,
) -> Result<(), SinkFault>
    ensures ok { OnOk result (TellsAll (K.taken sink.old) (K.taken sink.new) batch.old.items batch.new.items
        (certificate_before (R.world state.now) block)) }
    ensures err { OnErr result (TellsPart (K.taken sink.old) (K.taken sink.new) batch.old.items batch.new.items
        (certificate_before (R.world state.now) block)) }
    ensures counts { CountsFaults (result ≡ Err SinkFault.WriteFault) (K.faults sink.old) (K.faults sink.new) }
{
    let Some((slot, pulse)) = block else {
        return Ok(());
    };
    if !state.ends_epoch(slot, pulse) {
        return Ok(());
    }
    let mut to = Through { batch, sink };
    put_through(alloc, state, text, &mut to)
}

impl<R: CertifiedState + Drop> Teller<R> for Certificates {
    ghost use Rattle.replay_loop.specs.Certificates.{certificates_told};

    ghost Kept = { Unit {0} };

    ghost kept = { λ _. tt };

    ghost telling = { certificates_told };

    fn ahead<K: Sink>(
        &mut self,
        state: &R,
        reading: &Reading,
        batch: &mut Vec<u8>,
        sink: &mut K,
    ) -> Result<(), SinkFault> {
        let block = block_of(reading);
        tell_end(self.alloc, state, block, &mut self.text, batch, sink)
    }

    fn tell<K: Sink>(
        &mut self,
        _state: &R,
        _outcome: Outcome,
        _number: u64,
        _batch: &mut Vec<u8>,
        _sink: &mut K,
    ) -> Result<(), SinkFault> {
        Ok(())
    }

    fn close<K: Sink>(
        &mut self,
        _state: R,
        _number: u64,
        _batch: &mut Vec<u8>,
        _sink: &mut K,
    ) -> Result<(), SinkFault> {
        Ok(())
    }
}
