//! A state that begins with a checkpoint.
ghost use Rattle.std.specs.Prelude.{[], ◌≡◌, Err, IfOk, Ok, Some, option_map};
ghost use Rattle.embedded.specs.Resumed.{IsCut, Resumes};
ghost use Rattle.line_giver.specs.OfList.{texts_of};

use crate::fault::CheckpointFault;
use crate::state::SessionState;
use byte_lines::{Line, Lines, MemorySource, whole_lines};
use hash_seed::HashSeed;
use no_memory::NoMemory;
use std::alloc::Global;
use tx_records::limits::LINE_LIMIT;

/// The most bytes that a reader of a text asks for at once.
const PART: usize = 65_536;

/// A copy of a line.
fn copied(alloc: Global, line: &[u8]) -> Result<Vec<u8>, NoMemory>
    ensures { IfOk result (λ copy. copy.items ≡ line.now) }
{
    let mut copy = Vec::new(alloc);
    copy.extend_from_slice(line)?;
    Ok(copy)
}

/// The lines of a text, each without its line feed; nothing if one is too long.
fn lines_of(alloc: Global, text: &[u8]) -> Result<Option<Vec<Vec<u8>>>, NoMemory>
    ensures { IfOk result (λ lines. IsCut text.now (option_map (λ ls. texts_of ls.items) lines)) }
{
    // (laws: the lines that a reader gave are those of the text)
    whole_lines();
    let mut source = MemorySource::new(text, PART);
    let mut reader = Lines::new(alloc, LINE_LIMIT, u64::MAX);
    let mut lines = Vec::new(alloc);
    for _ in 0..u64::MAX {
        match reader.next(&mut source) {
            Ok(Line::Whole) => lines.push(copied(alloc, reader.text())?)?,
            Ok(Line::TooLong) => return Ok(None),
            Ok(Line::End) => return Ok(Some(lines)),
            Err(_) => return Err(NoMemory),
        }
    }
    // (no text has so many lines)
    Err(NoMemory)
}

/// The state of a checkpoint, and the number of the line behind which that was made.
pub(crate) fn resumed<R: SessionState>(
    alloc: Global,
    seed: HashSeed,
    text: &[u8],
) -> Result<(R, u64), CheckpointFault>
    ensures ok { IfOk result (λ r. Resumes text.now (Ok (record { world = Some (R.world r.0); line = r.1; text = [] }))) }
    ensures bad { result ≡ Err CheckpointFault.Bad → Resumes text.now (Err CheckpointFault.Bad) }
{
    match lines_of(alloc, text)? {
        Some(lines) => R::of_checkpoint(alloc, seed, lines.as_slice()),
        None => Err(CheckpointFault::Bad),
    }
}
