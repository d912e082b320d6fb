use byte_lines::{LineFault, SinkFault};

/// Why not all texts were answered.
#[derive(Clone, Copy, Debug, PartialEq, Eq)]
pub enum CheckFault {
    /// A read failed.
    ReadFault,
    /// A write failed.
    WriteFault,
    /// Memory ran out.
    NoMemory,
    /// The stream is longer than its limit.
    TooMuch,
}

impl From<LineFault> for CheckFault {
    ghost use Rattle.std.specs.Prelude.{◌≡◌};
    ghost use Rattle.check_loop.specs.Faults.{fault_of_line};

    ghost from_gives = { λ fault f. f ≡ fault_of_line fault };

    fn from(fault: LineFault) -> CheckFault {
        match fault {
            LineFault::ReadFault => CheckFault::ReadFault,
            LineFault::TooMuch => CheckFault::TooMuch,
            LineFault::NoMemory => CheckFault::NoMemory,
        }
    }
}

impl From<SinkFault> for CheckFault {
    ghost use Rattle.std.specs.Prelude.{◌≡◌};
    ghost use Rattle.check_loop.specs.Faults.{fault_of_sink};

    ghost from_gives = { λ fault f. f ≡ fault_of_sink fault };

    fn from(fault: SinkFault) -> CheckFault {
        match fault {
            SinkFault::WriteFault => CheckFault::WriteFault,
            SinkFault::NoMemory => CheckFault::NoMemory,
        }
    }
}
