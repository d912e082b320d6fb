ghost use Rattle.std.specs.Prelude.{◌≡◌, []};
ghost use Rattle.record_notes.specs.Seen.{noted_seen};
ghost use Rattle.tx_records.specs.declared.record.Reading.TheVariants as readings;

use std::alloc::Global;
use tx_records::Reading;

/// What there is to say of a value.
#[derive(Clone, Copy, Debug, PartialEq, Eq)]
pub enum What {
    /// It has to be there, and not null.
    Missing,
    /// It is of another JSON kind.
    WrongKind,
    /// It is a number out of range, or an array of too few or too many entries.
    OutOfRange,
    /// It is a text of another form.
    UnknownForm,
    /// Nobody reads a member of this name.
    Unread,
    /// The line is no JSON value: so many of its bytes are the front of one.
    NoJson(u64),
}

/// A thing to say, with the path of the value.
#[derive(Drop)]
pub struct Note {
    /// The names of members, with a dot between, and the places of entries in brackets, from 0.
    pub path: Vec<u8>,
    pub what: What,
}

/// What was read of a line, and what more there is to say of it.
#[derive(Drop)]
pub struct Noted {
    pub reading: Reading,
    pub notes: Vec<Note>,
}

impl Noted {
    /// A line that is too long, of which there is no more to say.
    pub fn too_long(alloc: Global) -> Noted
        ensures { noted_seen result ≡ record { reading = readings.TooLong; said = [] } }
    {
        Noted {
            reading: Reading::TooLong,
            notes: Vec::new(alloc),
        }
    }
}
