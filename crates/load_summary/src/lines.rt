//! Lines that are written.
ghost use Rattle.std.specs.Prelude.{◌≡◌, ℕ, map, take, Err, OnErr, OnOk};
ghost use Rattle.std.specs.Io.KnownBytes.{append_known};
ghost use Rattle.byte_lines.specs.Faults.{CountsFaults};
ghost use Rattle.load_model.specs.Json.{joined};

use byte_lines::{Sink, SinkFault, put_all};

/// Writes lines to a sink, in order. After an error the sink took a prefix of their bytes.
pub fn write_lines<K: Sink>(sink: &mut K, lines: &[Vec<u8>]) -> Result<(), SinkFault>
    ensures ok { OnOk result (K.taken sink.new ≡ append_known (K.taken sink.old) (joined (map (λ line. line.items) lines.now))) }
    ensures err { OnErr result ((k : ℕ) ×
        (K.taken sink.new ≡ append_known (K.taken sink.old) (take k (joined (map (λ line. line.items) lines.now))))) }
    ensures counts { CountsFaults (result ≡ Err SinkFault.WriteFault) (K.faults sink.old) (K.faults sink.new) }
{
    for line in lines {
        put_all(sink, line.as_slice())?;
    }
    Ok(())
}
