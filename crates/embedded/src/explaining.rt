//! What is wrong with a line.
ghost use Rattle.std.specs.Prelude.{◌≡◌, IfOk, IfSome, option_map, true};
ghost use Rattle.embedded.specs.Verdicts.{explanation_text, noted_by};
ghost use Rattle.record_notes.specs.Seen.{noted_seen};
ghost use Rattle.record_stream.specs.Records.{is_within};

use crate::gathered::explanation_of;
use crate::state::SessionState;
use byte_lines::MemorySink;
use no_memory::NoMemory;
use record_notes::{Noted, Scratch, read_noted};
use std::alloc::Global;
use tx_records::limits::LINE_LIMIT;

/// What a line says, and what more there is to say of it; nothing if it is blank.
fn noted(alloc: Global, scratch: &mut Scratch, line: &[u8]) -> Result<Option<Noted>, NoMemory>
    ensures says { IfOk result (λ said. option_map noted_seen said ≡ noted_by line.now) }
    ensures within { IfOk result (λ said. IfSome said (λ noted. is_within noted.reading ≡ true)) }
{
    if line.len() <= LINE_LIMIT as usize {
        read_noted(alloc, scratch, line)
    } else {
        Ok(Some(Noted::too_long(alloc)))
    }
}

/// The text of the explanation of the line of this number.
pub(crate) fn explained<R: SessionState + Drop>(
    alloc: Global,
    scratch: &mut Scratch,
    state: &R,
    number: u64,
    line: &[u8],
) -> Result<MemorySink, NoMemory>
    ensures { IfOk result (λ text. text ≡ explanation_text (R.world state.now) number (noted_by line.now)) }
{
    match noted(alloc, scratch, line)? {
        Some(said) => explanation_of(alloc, state, number, &said),
        None => Ok(MemorySink::new(alloc)),
    }
}
