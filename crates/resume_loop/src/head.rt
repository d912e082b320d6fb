//! The checkpoint at the beginning of a stream.
ghost use Rattle.std.specs.Prelude.{◌≡◌, ◌≤◌, ℕ, List, [], Err, IfOk, Some};
ghost use Rattle.byte_lines.specs.Faults.{CountsFaults};
ghost use Rattle.byte_lines.specs.Progress.{HasRead};
ghost use Rattle.ended_source.specs.Ended.{EndedText, IsAt};
ghost use Rattle.resume_loop.specs.Reading.{ReadsHead, ReadsText, fresh_reader};

use crate::state::ResumedState;
use byte_lines::{LineFault, Lines, Source};
use ended_source::{EndedLines, Place, fault_of, pass_all};
use hash_seed::HashSeed;
use std::alloc::Global;

// Reads a checkpoint, and passes what is left up to the first `end` if the lines are none.
fn read_text<R: ResumedState + Drop, S: Source>(
    alloc: Global,
    seed: HashSeed,
    workers: u32,
    ended: &mut EndedLines<'_, '_, S>,
) -> Result<Option<(R, u64)>, LineFault>
    ghost text: { EndedText }
    requires some { 1 ≤ workers }
    requires few { workers ≤ 64 }
    requires open { ended.old.place ≡ Place.Open }
    requires first { text.first ≡ [] }
    requires bytes { text.bytes ≡ S.left ended.old.source.now }
    requires at { IsAt text (record {
      reader = ended.old.lines.ghost_name;
      source = ended.old.source.ghost_name;
      lines = ended.old.lines.now;
      place = ended.old.place;
      left = S.left ended.old.source.now;
      failed = S.faults ended.old.source.now;
    }) [] }
    ensures same_lines { ended.new.lines.ghost_name ≡ ended.old.lines.ghost_name }
    ensures same_source { ended.new.source.ghost_name ≡ ended.old.source.ghost_name }
    ensures reads { ReadsText R.world text (record {
      reader = ended.new.lines.ghost_name;
      source = ended.new.source.ghost_name;
      lines = ended.new.lines.now;
      place = ended.new.place;
      left = S.left ended.new.source.now;
      failed = S.faults ended.new.source.now;
    }) result }
{
    match R::read_checkpoint(alloc, seed, workers, ended) {
        Ok(Some(read)) => Ok(Some(read)),
        Ok(None) => {
            pass_all(ended)?;
            Ok(None)
        }
        Err(_) => Err(fault_of(ended.place)),
    }
}

// Reads a checkpoint at the beginning of a stream, up to and with the first `end`. After that line
// the source is asked for nothing more.
pub(crate) fn read_head<R: ResumedState + Drop, S: Source>(
    alloc: Global,
    seed: HashSeed,
    workers: u32,
    lines: &mut Lines,
    source: &mut S,
) -> Result<Option<(R, u64)>, LineFault>
    requires some { 1 ≤ workers }
    requires few { workers ≤ 64 }
    requires fresh { lines.old ≡ fresh_reader }
    requires unread { (bytes : List ℕ) → HasRead bytes lines.old (Some bytes) [] }
    ensures reads { (bytes : List ℕ) → S.left source.old ≡ Some bytes → ReadsHead R.world bytes lines.new (S.left source.new) result }
    ensures within { IfOk result (λ _. lines.new.taken ≤ lines.new.stream_max) }
    ensures counts { CountsFaults (result ≡ Err LineFault.ReadFault) (S.faults source.old) (S.faults source.new) }
{
    let mut ended = EndedLines {
        lines,
        source,
        place: Place::Open,
    };
    read_text(alloc, seed, workers, &mut ended)
}
