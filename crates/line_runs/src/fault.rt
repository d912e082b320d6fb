use byte_lines::{LineFault, SinkFault};
use no_memory::NoMemory;

/// Why a run did not come to its end.
#[derive(Clone, Copy, Debug, PartialEq, Eq)]
pub enum RunFault<X> {
    /// The command stopped, for a cause of its own.
    Stop(X),
    /// A read failed.
    ReadFault,
    /// A write failed.
    WriteFault,
    /// Memory ran out.
    NoMemory,
    /// The stream is longer than its limit.
    TooMuch,
}

impl<X> From<LineFault> for RunFault<X> {
    ghost use Rattle.std.specs.Prelude.{◌≡◌};
    ghost use Rattle.line_runs.specs.Turns.{fault_of_line};

    ghost from_gives = { λ fault f. f ≡ fault_of_line fault };

    fn from(fault: LineFault) -> RunFault<X> {
        match fault {
            LineFault::ReadFault => RunFault::ReadFault,
            LineFault::TooMuch => RunFault::TooMuch,
            LineFault::NoMemory => RunFault::NoMemory,
        }
    }
}

impl<X> From<SinkFault> for RunFault<X> {
    ghost use Rattle.std.specs.Prelude.{◌≡◌};
    ghost use Rattle.line_runs.specs.Turns.{fault_of_sink};

    ghost from_gives = { λ fault f. f ≡ fault_of_sink fault };

    fn from(fault: SinkFault) -> RunFault<X> {
        match fault {
            SinkFault::WriteFault => RunFault::WriteFault,
            SinkFault::NoMemory => RunFault::NoMemory,
        }
    }
}

impl<X> From<NoMemory> for RunFault<X> {
    ghost use Rattle.std.specs.Prelude.{◌≡◌};
    ghost use Rattle.line_runs.specs.declared.fault.RunFault.TheVariants as faults;

    ghost from_gives = { λ _ f. f ≡ faults.NoMemory };

    fn from(_error: NoMemory) -> RunFault<X> {
        RunFault::NoMemory
    }
}
