//! Why a row fails: it is no row, or memory or the outside fails. The program ends with status 1.
use coin_frac::NoMemory;
use std::alloc::{AllocError, AllocFailed};
use std::io;
use std::num::ParseIntError;

#[derive(Debug, Drop)]
pub(crate) struct Stop;

pub(crate) type Result<T> = std::result::Result<T, Stop>;

impl From<NoMemory> for Stop {
    fn from(_error: NoMemory) -> Stop {
        Stop
    }
}

impl From<AllocError> for Stop {
    fn from(_error: AllocError) -> Stop {
        Stop
    }
}

impl<T: Drop> From<AllocFailed<T>> for Stop {
    fn from(_error: AllocFailed<T>) -> Stop {
        Stop
    }
}

impl From<ParseIntError> for Stop {
    fn from(_error: ParseIntError) -> Stop {
        Stop
    }
}

impl From<io::Error> for Stop {
    fn from(_error: io::Error) -> Stop {
        Stop
    }
}
