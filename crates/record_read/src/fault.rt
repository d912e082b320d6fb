ghost use Rattle.std.specs.Prelude.{◌≡◌};

use coin_frac::NoMemory;
use std::alloc::AllocError;
use tx_records::FieldName;

/// Why a line gives no record.
#[derive(Clone, Copy, Debug, PartialEq, Eq)]
pub enum RecordFault {
    /// `serde_json` reads no value.
    BadJson,
    /// The value is no object, or its kind is none of the five.
    UnknownKind,
    /// The first missing or bad field, and the place in its list, from 0, of a bad entry.
    BadField { name: FieldName, place: Option<u32> },
    /// Memory ran out.
    NoMemory,
}

impl From<NoMemory> for RecordFault {
    ghost use Rattle.record_read.specs.declared.fault.RecordFault.TheVariants as faults;

    ghost from_gives = { λ _ e. e ≡ faults.NoMemory };

    fn from(_error: NoMemory) -> RecordFault {
        RecordFault::NoMemory
    }
}

impl From<AllocError> for RecordFault {
    ghost use Rattle.record_read.specs.declared.fault.RecordFault.TheVariants as faults;

    ghost from_gives = { λ _ e. e ≡ faults.NoMemory };

    fn from(_error: AllocError) -> RecordFault {
        RecordFault::NoMemory
    }
}
