//! Text that is gathered for a sink.
ghost use Rattle.std.specs.Prelude.{◌≡◌, ℕ, ◌<◌, [], Err, OnErr, OnOk, length, take};
ghost use Rattle.std.specs.Io.KnownBytes.{append_known};
ghost use Rattle.byte_lines.specs.Faults.{CountsFaults};
ghost use Rattle.line_runs.specs.Batches.{IsGatheredPart, with_gathered};

use byte_lines::{Sink, SinkFault, put_all};

/// The most bytes of text that are gathered, except for one longer line.
const BATCH_LIMIT: usize = 65_536;

/// Hands over all gathered text. After an error the sink has a prefix of it; the rest is gone.
pub fn hand_over<K: Sink>(batch: &mut Vec<u8>, sink: &mut K) -> Result<(), SinkFault>
    ensures ok { OnOk result (K.taken sink.new ≡ append_known (K.taken sink.old) batch.old.items) }
    ensures err { OnErr result ((n : ℕ) × (n < length batch.old.items)
        × (K.taken sink.new ≡ append_known (K.taken sink.old) (take n batch.old.items))) }
    ensures none { batch.new.items ≡ [] }
    ensures counts { CountsFaults (result ≡ Err SinkFault.WriteFault) (K.faults sink.old) (K.faults sink.new) }
{
    let handed = put_all(sink, batch);
    batch.clear();
    handed
}

/// Gathers a line. If it does not fit, all text gathered before is handed over first.
pub fn gather<K: Sink>(batch: &mut Vec<u8>, sink: &mut K, line: &[u8]) -> Result<(), SinkFault>
    ensures ok { OnOk result (record { taken = K.taken sink.new; batch = batch.new.items }
        ≡ with_gathered (record { taken = K.taken sink.old; batch = batch.old.items }) line.now) }
    ensures err { OnErr result (IsGatheredPart (record { taken = K.taken sink.old; batch = batch.old.items }) line.now
        (record { taken = K.taken sink.new; batch = batch.new.items })) }
    ensures counts { CountsFaults (result ≡ Err SinkFault.WriteFault) (K.faults sink.old) (K.faults sink.new) }
{
    if batch.len() + line.len() > BATCH_LIMIT {
        hand_over(batch, sink)?;
    }
    batch.extend_from_slice(line)?;
    Ok(())
}
