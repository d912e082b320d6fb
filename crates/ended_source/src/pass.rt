ghost use Rattle.ended_source.specs.Ended.{EndsAt, Standing, giving_at, passed_at};
ghost use Rattle.line_giver.specs.Giving.{PassesSome};

use crate::ended::EndedLines;
use crate::place::fault_of;
use byte_lines::{Line, LineFault, Source};
use line_giver::LineGiver;

/// Passes the lines that are left, and holds none of them.
pub fn pass_all<S: Source>(ended: &mut EndedLines<S>) -> Result<(), LineFault>
    ensures passes { let old : Standing = record {
      reader = ended.old.lines.ghost_name;
      source = ended.old.source.ghost_name;
      lines = ended.old.lines.now;
      place = ended.old.place;
      left = S.left ended.old.source.now;
      failed = S.faults ended.old.source.now;
    } in
        let new : Standing = record {
          reader = ended.new.lines.ghost_name;
          source = ended.new.source.ghost_name;
          lines = ended.new.lines.now;
          place = ended.new.place;
          left = S.left ended.new.source.now;
          failed = S.faults ended.new.source.now;
        } in
        PassesSome (passed_at old) (passed_at new) (giving_at old) (giving_at new) }
    ensures at { EndsAt ended.new.place result }
{
    for _ in 0..u64::MAX {
        match ended.look()? {
            Line::Whole | Line::TooLong => ended.pass(),
            Line::End => return Ok(()),
        }
    }
    // (no source has so many lines)
    Err(fault_of(ended.place))
}
