ghost use Rattle.std.specs.Prelude.{◌≡◌};
ghost use Rattle.replay_loop.specs.Statuses.{status_by, status_number};

use line_runs::RunFault;
use tx_records::{FieldName, GenesisRule};

/// How a run ended.
#[derive(Clone, Copy, Debug, PartialEq, Eq)]
pub enum Status {
    /// The input was read to its end and all text written.
    Done,
    /// The words are not in the command table.
    Usage,
    /// The first line that is not blank is no genesis that can be replayed.
    BadGenesis(GenesisCause),
    /// A read failed.
    ReadFault,
    /// A write failed.
    WriteFault,
    /// Memory ran out.
    NoMemory,
    /// The stream is longer than its limit.
    TooMuch,
    /// The lines up to the first `end` are the checkpoint of no ledger.
    BadCheckpoint,
}

/// Why there was no genesis to begin with.
#[derive(Clone, Copy, Debug, PartialEq, Eq)]
pub enum GenesisCause {
    /// There is no line, or none that is not blank.
    Missing,
    /// The line is longer than a line may be.
    TooLong,
    /// It is no record: what of it is wrong, and, for an entry of a list, its index there, from 0.
    Malformed { what: FieldName, place: Option<u32> },
    /// It is a record of another kind.
    NoGenesis,
    /// The first genesis rule that it breaks.
    Broken(GenesisRule),
}

impl Status {
    /// The status of a command that ended so.
    pub fn of(ended: Result<(), RunFault<GenesisCause>>) -> Status
        ensures { result ≡ status_by ended }
    {
        match ended {
            Ok(()) => Status::Done,
            Err(fault) => Status::from(fault),
        }
    }

    /// The status with which the program ends.
    pub fn number(&self) -> u8
        ensures { result ≡ status_number self.now }
    {
        match self {
            Status::Done => 0,
            Status::Usage => 2,
            Status::BadGenesis(_) => 3,
            Status::ReadFault => 4,
            Status::WriteFault => 5,
            Status::NoMemory => 6,
            Status::TooMuch => 7,
            Status::BadCheckpoint => 8,
        }
    }
}
