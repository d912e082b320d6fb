//! Where bytes go.
ghost use Rattle.std.specs.Prelude.{◌≡◌, ℕ, ◌<◌, List, [], Option, length, take, OnOk, OnErr};
ghost use Rattle.std.specs.Io.KnownBytes.{append_known};
ghost use Rattle.byte_lines.specs.Faults.{CountsFaults};
ghost use Rattle.byte_lines.specs.Sinks.{IsWrite};

use no_memory::NoMemory;
use std::alloc::AllocError;
use thiserror::Error;

/// Why bytes were not taken.
#[derive(Clone, Copy, Debug, PartialEq, Eq, Error)]
pub enum SinkFault {
    /// A write failed, and the sink's count of faults rose.
    #[error("a write failed")]
    WriteFault,
    /// Out of memory.
    #[error("out of memory")]
    NoMemory,
}

impl From<NoMemory> for SinkFault {
    ghost use Rattle.byte_lines.specs.declared.sink.SinkFault.TheVariants.{NoMemory};

    ghost from_gives = { λ _ fault. fault ≡ NoMemory };

    fn from(_error: NoMemory) -> SinkFault {
        SinkFault::NoMemory
    }
}

impl From<AllocError> for SinkFault {
    ghost use Rattle.byte_lines.specs.declared.sink.SinkFault.TheVariants.{NoMemory};

    ghost from_gives = { λ _ fault. fault ≡ NoMemory };

    fn from(_error: AllocError) -> SinkFault {
        SinkFault::NoMemory
    }
}

/// A sink for bytes.
pub trait Sink {
    // the bytes taken, if the sink reports them: for its whole life, or never
    ghost taken: { Self → Option (List ℕ) };

    // how many writes failed; it never falls
    ghost faults: { Self → ℕ };

    /// Takes the first bytes of `piece`, at least one, and returns how many.
    fn write(&mut self, piece: &[u8]) -> Result<usize, SinkFault>
        requires { 0 < length piece.now }
        ensures { IsWrite (taken self.old) (taken self.new) (faults self.old) (faults self.new) piece.now result };
}

/// Writes the whole piece. An error leaves a prefix of it in the sink.
/// An empty piece does not call the sink.
pub fn put_all<K: Sink>(sink: &mut K, piece: &[u8]) -> Result<(), SinkFault>
    ensures ok { OnOk result (K.taken sink.new ≡ append_known (K.taken sink.old) piece.now) }
    ensures err { OnErr result ((n : ℕ) × (n < length piece.now)
        × (K.taken sink.new ≡ append_known (K.taken sink.old) (take n piece.now))) }
    ensures counts { CountsFaults (result ≡ Err SinkFault.WriteFault) (K.faults sink.old) (K.faults sink.new) }
    ensures empty { piece.now ≡ [] → (result ≡ Ok tt) × (sink.new ≡ sink.old) }
{
    let mut at = 0;
    while at < piece.len() {
        let taken = sink.write(&piece[at..])?;
        at += taken;
    }
    Ok(())
}
