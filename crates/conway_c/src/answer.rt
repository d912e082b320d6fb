ghost use Rattle.std.specs.Prelude.{◌≡◌};
ghost use Rattle.conway_c.specs.Calls.{IsCopied, Tells};

/// It did what it is for.
pub(crate) const DONE: u32 = 0;
/// The line is no genesis to begin with.
pub(crate) const BAD_GENESIS: u32 = 3;
/// Memory ran out.
pub(crate) const NO_MEMORY: u32 = 6;
/// The text is the checkpoint of no ledger.
pub(crate) const BAD_CHECKPOINT: u32 = 8;
/// The handle is closed.
pub(crate) const IS_CLOSED: u32 = 20;
/// No number is left for a further line.
pub(crate) const IS_FULL: u32 = 21;
/// The line that is to be a genesis is blank.
pub(crate) const IS_BLANK: u32 = 22;

/// What a call answers: its status, how many bytes of text it wrote, and how long the text is.
#[repr(C)]
#[derive(Drop)]
pub struct Answer {
    pub status: u32,
    pub written: usize,
    pub wanted: usize,
}

impl Answer {
    /// No text.
    pub(crate) fn without_text(status: u32) -> Answer
        ensures { result ≡ record { status = status; written = 0; wanted = 0 } }
    {
        Answer {
            status,
            written: 0,
            wanted: 0,
        }
    }

    /// A text, copied where it fits whole.
    pub(crate) fn with_text(status: u32, text: &[u8], room: &mut [u8]) -> Answer
        ensures status { result.status ≡ status }
        ensures tells { Tells text.now room.old room.new result }
    {
        Answer {
            status,
            written: copied(text, room),
            wanted: text.len(),
        }
    }
}

/// Copies a text to where it fits whole, else nothing of it; returns how much was copied.
fn copied(text: &[u8], room: &mut [u8]) -> usize
    ensures { IsCopied text.now room.old room.new result }
{
    if text.len() <= room.len() {
        room[..text.len()].copy_from_slice(text);
        text.len()
    } else {
        0
    }
}
