ghost use Rattle.std.specs.Prelude.{◌≡◌};
ghost use Rattle.ended_source.specs.Faults.{fault_at};

use byte_lines::LineFault;

/// How far the lines of a text were passed.
#[derive(Clone, Copy)]
pub enum Place {
    /// No line is seen.
    Open,
    /// A whole line is seen and not passed.
    Whole,
    /// A line that is too long is seen and not passed.
    TooLong,
    /// The line `end` was passed.
    Through,
    /// The source has no line left.
    Ended,
    /// There was no next line, for this cause.
    Failed(LineFault),
}

/// The fault at a place; out of memory if it has none.
pub fn fault_of(place: Place) -> LineFault
    ensures { result ≡ fault_at place }
{
    match place {
        Place::Failed(fault) => fault,
        Place::Open | Place::Whole | Place::TooLong | Place::Through | Place::Ended => {
            LineFault::NoMemory
        }
    }
}
